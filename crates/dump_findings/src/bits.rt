//! The bits of dumps that are compared.
use crate::compared::Compared;
use Piece::{Quoted, Text};
use finding_words::{Piece, sentence};
use std::alloc::{AllocError, Global};
use text_places::Source;
use vcd_bits::{Dump, Table};
use vcd_compare::Options;

/// The bits of a dump that is compared: those in a scope, and all by their whole paths.
#[derive(Drop)]
pub(crate) struct Bits<'a> {
    file: &'a str,
    scope: Vec<u8>,
    scoped: Table<'a>,
    all: Table<'a>,
}

/// The bits of both dumps.
#[derive(Drop)]
pub(crate) struct Both<'a> {
    pub expected: Bits<'a>,
    pub actual: Bits<'a>,
}

/// The bits in a scope of a text; none where it is refused or memory runs out.
fn opened<'a>(alloc: Global, text: &'a [u8], scope: Option<&[u8]>) -> Option<Table<'a>> {
    match Dump::open(alloc, text, scope) {
        Ok(dump) => Some(dump.table),
        Err(_) => None,
    }
}

/// The name of the first bit; an empty one where there is none.
fn first_name<'t>(table: &'t Table<'_>) -> &'t [u8] {
    match table.bit(0) {
        Some((name, _)) => name,
        None => &[],
    }
}

/// The path of scopes before a name, of the whole path.
pub(crate) fn scope_before<'p>(path: &'p [u8], name: &[u8]) -> &'p [u8] {
    let before = path.strip_suffix(name).unwrap_or(&[]);
    before.strip_suffix(b".").unwrap_or(before)
}

/// The scope that is asked for, or the one before the first bit in it.
fn scope_of(
    alloc: Global,
    asked: Option<&[u8]>,
    all: &Table<'_>,
    scoped: &Table<'_>,
) -> Option<Vec<u8>> {
    let scope = match asked {
        Some(scope) => Vec::from_slice(alloc, scope),
        None => Vec::from_slice(alloc, scope_before(first_name(all), first_name(scoped))),
    };
    scope.ok()
}

/// The names of the bits.
fn names<'t>(alloc: Global, table: &'t Table<'_>) -> Result<Vec<&'t [u8]>, AllocError> {
    let mut names = Vec::new(alloc);
    for number in 0..table.count() {
        if let Some((name, _)) = table.bit(number) {
            names.push(name)?;
        }
    }
    Ok(names)
}

impl<'a> Bits<'a> {
    /// The bits of the scope that is asked for, or of that of the first variable. None where the dump is refused or memory
    /// runs out.
    fn of(alloc: Global, source: Source<'a>, asked: Option<&[u8]>) -> Option<Bits<'a>> {
        let scoped = opened(alloc, source.text, asked)?;
        let all = opened(alloc, source.text, Some(&[]))?;
        let scope = scope_of(alloc, asked, &all, &scoped)?;
        Some(Bits {
            file: source.name,
            scope,
            scoped,
            all,
        })
    }

    pub(crate) fn scope(&self) -> &[u8] {
        self.scope.as_slice()
    }

    /// Whether there is a bit of this name in the scope.
    pub(crate) fn has(&self, name: &[u8]) -> bool {
        self.scoped.find(name).is_some()
    }

    /// The name of the first bit in the scope, empty where there is none.
    pub(crate) fn first(&self) -> &[u8] {
        first_name(&self.scoped)
    }

    /// The path of the first bit of all, empty where there is none.
    pub(crate) fn first_of_all(&self) -> &[u8] {
        first_name(&self.all)
    }

    /// The names in the scope.
    pub(crate) fn names(&self, alloc: Global) -> Result<Vec<&[u8]>, AllocError> {
        names(alloc, &self.scoped)
    }

    /// The paths of all bits.
    pub(crate) fn paths(&self, alloc: Global) -> Result<Vec<&[u8]>, AllocError> {
        names(alloc, &self.all)
    }

    /// Where the bits stand, for a sentence.
    pub(crate) fn place(&self, alloc: Global) -> Result<String, AllocError> {
        if self.scope.is_empty() {
            return String::from_str(alloc, self.file);
        }
        let scope = self.scope.as_slice();
        sentence(
            alloc,
            &[
                Text("the scope "),
                Quoted(scope),
                Text(" of "),
                Text(self.file),
            ],
        )
    }
}

impl<'a> Both<'a> {
    /// The bits that are compared. None where a dump is refused or memory runs out.
    pub(crate) fn of(
        alloc: Global,
        options: &Options<'_>,
        texts: &Compared<'a>,
    ) -> Option<Both<'a>> {
        let expected = Bits::of(alloc, texts.expected, options.expected_scope)?;
        let actual = Bits::of(alloc, texts.actual, options.actual_scope)?;
        Some(Both { expected, actual })
    }
}
