//! What the lines of a text say, in their order. The nets that they use lie in one list.
ghost use Rattle.std.specs.Prelude.{◌≡◌, ◌≤◌, ◌++◌, ◌∷◌, [], length, map, IfOk, OnOk, OnErr};
ghost use Rattle.std.specs.List.{All};
ghost use Rattle.gate_netlist.specs.Bench.{number_among};
ghost use Rattle.gate_netlist.specs.Inner.Keys.{names_in};
ghost use Rattle.gate_netlist.specs.Inner.Meant.{meant, names_meant};
ghost use Rattle.gate_netlist.specs.Inner.Stored.{statements_in, LiesWithin, IsStored};

use crate::bench::Names;
use crate::statement::Statement;
use gate_values::Kind;
use std::alloc::{AllocError, Global};
use std::marker::Model;

/// What a line says. A net that it uses is a place in the list of uses; those of a gate are so many from a place on.
#[derive(Clone, Copy)]
pub(crate) enum Stored<'a> {
    Nothing,
    Input(&'a str),
    Output(usize),
    Gate {
        name: &'a str,
        kind: Kind,
        start: usize,
        count: usize,
    },
    Flop {
        name: &'a str,
        d: usize,
    },
}

/// Statements, one for each line.
#[derive(Drop)]
pub(crate) struct Statements<'a> {
    lines: Vec<Stored<'a>>,
    uses: Vec<&'a str>,
}

impl<'a> Model for Statements<'a> {
    ghost use Rattle.gate_netlist.specs.Inner.Stored.{Said};

    ghost Value = { Said };

    ghost use Rattle.std.specs.Prelude.{length};
    ghost use Rattle.std.specs.List.{All};
    ghost use Rattle.gate_netlist.specs.Inner.Meant.{names_meant};
    ghost use Rattle.gate_netlist.specs.Inner.Stored.{LiesWithin};

    ghost view = { λ statements. record { lines = statements.lines.items; uses = names_meant statements.uses.items } };

    ghost invariant = { λ statements. All (LiesWithin (length (names_meant statements.uses.items))) statements.lines.items };
}

impl<'a> Statements<'a> {
    /// No statement, and room for so many.
    pub(crate) fn with_capacity(alloc: Global, lines: usize) -> Result<Statements<'a>, AllocError>
        ensures { IfOk result (λ statements. statements_in statements ≡ []) }
    {
        Ok(Statements {
            lines: Vec::with_capacity(alloc, lines)?,
            uses: Vec::with_capacity(alloc, lines)?,
        })
    }

    /// What is true of all statements.
    pub(crate) fn law(&self)
        ensures { All (LiesWithin (length self.now.uses)) self.now.lines }
    {
        let _ = &self.lines;
    }

    pub(crate) fn lines(&self) -> &[Stored<'a>]
        ensures { result.now ≡ self.now.lines }
    {
        self.lines.as_slice()
    }

    /// One line more. An error is a refused growth.
    pub(crate) fn push(&mut self, statement: &Statement<'a, '_>) -> Result<(), AllocError>
        ensures { OnOk result (statements_in self.new ≡ statements_in self.old ++ meant statement.now ∷ []) }
    {
        self.lines.reserve(1)?;
        let line = set_down(&mut self.uses, statement)?;
        self.lines.push_reserved(line);
        Ok(())
    }

    /// The number of each use among these nets. All are looked up in one loop, so that one look needn't wait for another.
    pub(crate) fn numbers(&self, alloc: Global, names: &Names) -> Result<Vec<u32>, AllocError>
        requires { length (names_in names.now) ≤ 999999 }
        ensures { IfOk result (λ numbers. numbers.items ≡ map (number_among (names_in names.now)) self.now.uses) }
    {
        numbers_of(alloc, names, &self.uses)
    }
}

/// The number of a name, and that of names where it is none of them.
fn number_among(names: &Names, name: &str) -> u32
    requires { length (names_in names.now) ≤ 999999 }
    ensures { result ≡ number_among (names_in names.now) name.now }
{
    match names.get_index_of(name) {
        Some(number) => number as u32,
        None => names.len() as u32,
    }
}

fn numbers_of(alloc: Global, names: &Names, nets: &[&str]) -> Result<Vec<u32>, AllocError>
    requires { length (names_in names.now) ≤ 999999 }
    ensures { IfOk result (λ numbers. numbers.items ≡ map (λ net. number_among (names_in names.now) net.now) nets.now) }
{
    nets.iter()
        .map(|net| number_among(names, net))
        .collect(alloc)
}

/// A statement without lists of its own: what it uses goes behind the others.
fn set_down<'a>(
    uses: &mut Vec<&'a str>,
    statement: &Statement<'a, '_>,
) -> Result<Stored<'a>, AllocError>
    ensures ok { IfOk result (IsStored (names_meant uses.old.items) (names_meant uses.new.items) (meant statement.now)) }
    ensures err { OnErr result (uses.new.items ≡ uses.old.items) }
{
    match statement {
        Statement::Nothing => Ok(Stored::Nothing),
        Statement::Input(name) => Ok(Stored::Input(*name)),
        Statement::Output(name) => {
            let place = uses.len();
            uses.push(*name)?;
            Ok(Stored::Output(place))
        }
        Statement::Gate { name, kind, inputs } => {
            let start = uses.len();
            uses.extend_from_slice(inputs)?;
            Ok(Stored::Gate {
                name: *name,
                kind: *kind,
                start,
                count: inputs.len(),
            })
        }
        Statement::Flop { name, d } => {
            let place = uses.len();
            uses.push(*d)?;
            Ok(Stored::Flop {
                name: *name,
                d: place,
            })
        }
    }
}
