ghost use Rattle.std.specs.Prelude.{◌≡◌, ◌≤◌, ◌+◌, [], ℕ, List, Some, length, option_map, slice_get, IfErr, IfOk, OnOk};
ghost use Rattle.std.specs.Int.{abs_diff};
ghost use Rattle.gate_vcd.specs.Faults.{out_of_memory};
ghost use Rattle.gate_vcd.specs.Shown.Commands.{variable as variable_of, variables};
ghost use Rattle.gate_vcd.specs.Shown.Known.{source as source_of};
ghost use Rattle.gate_vcd.specs.Shown.Scalars.{vector as vector_in};
ghost use Rattle.gate_vcd.specs.Vectors.{last_bit};
ghost use Rattle.vcd_bits.specs.Names.{all_bits, bits_below, bits_of, named_source, number_of, vector_bits, with_bit, with_bits};
ghost use Rattle.vcd_bits.specs.Shown.Held.{texts_in};
ghost use Rattle.vcd_bits.specs.Shown.Tables.{bit_by, bit_of, bits_in};

use crate::names::{below, bit_named_in, is_one, named_in, number_from_left, single_name};
use crate::scoped::Scoped;
use gate_netlist::TextSeed;
use gate_vcd::{Source, StimFault, Variable, Vector, vector_of};
use indexmap::IndexMap;
use std::alloc::Global;

/// The bits of a dump by their names, in the order of their declarations.
#[derive(Drop)]
pub struct Table<'a> {
    pub bits: IndexMap<Vec<u8>, Source<'a>, TextSeed>,
}

impl<'a> Table<'a> {
    /// Keeps a bit, where none of its name is kept.
    fn put(&mut self, name: Vec<u8>, source: Source<'a>) -> Result<(), StimFault>
        ensures ok { OnOk result (bits_in self.new ≡ with_bit (bits_in self.old) (bit_by name.items (source_of source.entry))) }
        ensures err { IfErr result (λ e. e ≡ out_of_memory) }
    {
        if self.bits.contains_key(name.as_slice()) {
            return Ok(());
        }
        self.bits.insert(name, source)?;
        Ok(())
    }

    /// Keeps the bits of a vector, the leftmost first.
    fn put_vector(
        &mut self,
        alloc: Global,
        path: &[u8],
        code: &'a [u8],
        vector: &Vector,
    ) -> Result<(), StimFault>
        requires left { vector.now.left ≤ last_bit }
        requires right { vector.now.right ≤ last_bit }
        ensures ok { OnOk result (bits_in self.new ≡ with_bits (bits_in self.old) (vector_bits path.now code.now (vector_in vector.now) (abs_diff vector.now.left vector.now.right + 1))) }
        ensures err { IfErr result (λ e. e ≡ out_of_memory) }
    {
        for bit in 0..vector.left.abs_diff(vector.right) + 1 {
            let number = number_from_left(vector, bit);
            let name = bit_named_in(alloc, path, vector.base, number)?;
            let place = number.abs_diff(vector.right);
            self.put(name, Source { code, place })?;
        }
        Ok(())
    }

    /// Keeps the bits of a variable in a path.
    fn put_variable(
        &mut self,
        alloc: Global,
        path: &[u8],
        variable: &Variable<'a>,
    ) -> Result<(), StimFault>
        ensures ok { OnOk result (bits_in self.new ≡ with_bits (bits_in self.old) (bits_of path.now (variable_of variable.now))) }
        ensures err { IfErr result (λ e. e ≡ out_of_memory) }
    {
        let code = variable.code;
        if is_one(variable) {
            let name = named_in(alloc, path, single_name(variable.reference.as_slice()))?;
            return self.put(name, Source { code, place: 0 });
        }
        match vector_of(variable) {
            Some(vector) => self.put_vector(alloc, path, code, &vector),
            None => Ok(()),
        }
    }

    /// The same, where it has bits and stands in a scope.
    fn put_below(
        &mut self,
        alloc: Global,
        scope: &[u8],
        path: &[u8],
        variable: &Variable<'a>,
    ) -> Result<(), StimFault>
        ensures ok { OnOk result (bits_in self.new ≡ with_bits (bits_in self.old) (bits_below scope.now path.now (variable_of variable.now))) }
        ensures err { IfErr result (λ e. e ≡ out_of_memory) }
    {
        if !variable.valued {
            return Ok(());
        }
        match below(scope, path) {
            Some(path) => self.put_variable(alloc, path, variable),
            None => Ok(()),
        }
    }

    /// The bits in a scope.
    pub fn of(
        alloc: Global,
        seed: TextSeed,
        scope: &[u8],
        scoped: &Scoped<'a>,
    ) -> Result<Table<'a>, StimFault>
        ensures ok { IfOk result (λ table. bits_in table ≡ with_bits [] (all_bits scope.now (texts_in scoped.now.paths.items) (variables scoped.now.declared.variables.items))) }
        ensures err { IfErr result (λ e. e ≡ out_of_memory) }
    {
        let mut table = Table {
            bits: IndexMap::with_hasher(alloc, seed),
        };
        let variables = scoped.declared.variables.as_slice();
        let paths = scoped.paths.as_slice();
        for at in 0..variables.len().min(paths.len()) {
            table.put_below(alloc, scope, paths[at].as_slice(), &variables[at])?;
        }
        Ok(table)
    }

    /// How many bits there are.
    pub fn count(&self) -> usize
        ensures { result ≡ length (bits_in self.now) }
    {
        self.bits.len()
    }

    /// The bit of a number: its name, and where it takes its values from.
    pub fn bit(&self, number: usize) -> Option<(&[u8], Source<'a>)>
        ensures { option_map bit_of result ≡ slice_get (bits_in self.now) number }
    {
        match self.bits.get_index(number) {
            Some((name, source)) => Some((name.as_slice(), *source)),
            None => None,
        }
    }

    /// Where the bit of a name takes its values from.
    pub fn source(&self, name: &[u8]) -> Option<Source<'a>>
        ensures { option_map source_of result ≡ named_source (bits_in self.now) name.now }
    {
        self.bits.get(name).copied()
    }

    /// The number of the bit of a name.
    pub fn find(&self, name: &[u8]) -> Option<usize>
        ensures { result ≡ number_of (bits_in self.now) name.now }
    {
        self.bits.get_index_of(name)
    }
}
