ghost use Rattle.std.specs.Prelude.{◌≡◌, ℕ, List, Option, None, true, option_map, IfSome};
ghost use Rattle.gate_vcd.specs.Changes.{items, nothing};
ghost use Rattle.gate_vcd.specs.Shown.Commands.{variables as variables_of};
ghost use Rattle.gate_vcd.specs.Shown.Known.{source as source_of, sources_by};
ghost use Rattle.gate_vcd.specs.Sources.{AreDeclared, IsFollowed};
ghost use Rattle.gate_vcd.specs.Stimulus.{has_code};
ghost use Rattle.gate_vcd.specs.Tokens.{tokens_of};
ghost use Rattle.vcd_bits.specs.Names.{first_scope, named_source, scope_in};
ghost use Rattle.vcd_bits.specs.Scopes.{Scoped as TextScoped};
ghost use Rattle.vcd_bits.specs.Shown.Held.{texts_in};
ghost use Rattle.vcd_bits.specs.Shown.Opened.{IsOpened, Opens};
ghost use Rattle.vcd_bits.specs.Shown.Tables.{bits_in};

use crate::scoped::{Scoped, read_scoped};
use crate::table::Table;
use gate_netlist::TextSeed;
use gate_stimulus::Timescale;
use gate_vcd::{Followed, Source, StimFault, Variable, Words, read_sources};
use std::alloc::Global;

/// A dump whose declarations are read: the bits of a scope, and what is left of its text.
#[derive(Drop)]
pub struct Dump<'a> {
    pub timescale: Timescale,
    /// The bits of the scope by their names.
    pub table: Table<'a>,
    pub variables: Vec<Variable<'a>>,
    pub seed: TextSeed,
    pub words: Words<'a>,
}

/// The path of the first variable that has bits; the empty one where there is none.
fn first_scope<'s>(paths: &'s [Vec<u8>], variables: &[Variable]) -> &'s [u8]
    ensures { result.now ≡ first_scope (texts_in paths.now) (variables_of variables.now) }
{
    for at in 0..variables.len().min(paths.len()) {
        if variables[at].valued {
            return paths[at].as_slice();
        }
    }
    &[]
}

/// The scope that is asked for, or that of the first variable that has bits.
fn scope_in<'s>(asked: Option<&'s [u8]>, scoped: &'s Scoped) -> &'s [u8]
    ensures { result.now ≡ scope_in (option_map (λ a. a.now) asked.entry) (texts_in scoped.now.paths.items) (variables_of scoped.now.declared.variables.items) }
{
    match asked {
        Some(scope) => scope,
        None => first_scope(
            scoped.paths.as_slice(),
            scoped.declared.variables.as_slice(),
        ),
    }
}

impl<'a> Dump<'a> {
    /// Reads the declarations of a dump. Its bits are those of the scope that is asked for, or of the scope of the
    /// first variable. A fault is the first one of the declarations.
    pub fn open(alloc: Global, text: &'a [u8], asked: Option<&[u8]>) -> Result<Dump<'a>, StimFault>
        ensures { Opens (option_map (λ a. a.now) asked.entry) (tokens_of text.now) result }
    {
        let mut words = Words::new(text);
        let scoped = read_scoped(alloc, &mut words)?;
        let seed = TextSeed::of(words.passed(text));
        let table = Table::of(alloc, seed, scope_in(asked, &scoped), &scoped)?;
        Ok(Dump {
            timescale: scoped.declared.timescale,
            table,
            variables: scoped.declared.variables,
            seed,
            words,
        })
    }

    /// Where the bit of a name takes its values from.
    pub fn source(&self, name: &[u8]) -> Option<Source<'a>>
        ensures value { option_map source_of result ≡ named_source (bits_in self.now.table) name.now }
        ensures declared { (asked : Option (List ℕ)) (s : TextScoped) → IsOpened asked s self.now → IfSome result (λ source. has_code (variables_of self.now.variables.items) source.code.now ≡ true) }
    {
        self.table.source(name)
    }

    /// Reads the changes of the dump, for takers of its sources. A fault is the first one of the changes.
    pub fn follow(
        &mut self,
        alloc: Global,
        takers: &[Option<Source<'a>>],
    ) -> Result<Followed, StimFault>
        requires { AreDeclared (variables_of self.old.variables.items) (sources_by takers.now) }
        ensures table { self.new.table ≡ self.old.table }
        ensures timescale { self.new.timescale ≡ self.old.timescale }
        ensures followed { IsFollowed (variables_of self.old.variables.items) (sources_by takers.now) (items nothing self.old.words) result }
    {
        read_sources(
            alloc,
            &mut self.words,
            self.seed,
            self.timescale,
            self.variables.as_slice(),
            takers,
        )
    }
}
