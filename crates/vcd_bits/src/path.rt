ghost use Rattle.std.specs.Prelude.{◌≡◌, ◌≤◌, ◌-◌, ◌++◌, ◌∷◌, [], ℕ, List, length, take, IfErr, IfOk, OnOk};
ghost use Rattle.gate_vcd.specs.Declarations.{inner_path, path_of};
ghost use Rattle.gate_vcd.specs.Faults.{out_of_memory};
ghost use Rattle.vcd_bits.specs.Inner.Paths.{IsOpen, last_end, further};

use gate_vcd::StimFault;
use std::alloc::Global;

/// The open scopes of a dump: their names joined by dots, and where the path of each ends.
#[derive(Drop)]
pub struct Path {
    pub text: Vec<u8>,
    pub ends: Vec<usize>,
}

impl Path {
    /// No scope is open.
    pub fn new(alloc: Global) -> Path
        ensures { IsOpen result [] }
    {
        Path {
            text: Vec::new(alloc),
            ends: Vec::new(alloc),
        }
    }

    /// Adds the name of a scope to the path that it is in.
    fn extend(&mut self, name: &[u8]) -> Result<(), StimFault>
        ensures ok { OnOk result (self.new.text.items ≡ self.old.text.items ++ further self.old.ends.items name.now) }
        ensures ends { self.new.ends ≡ self.old.ends }
        ensures err { IfErr result (λ e. e ≡ out_of_memory) }
    {
        if self.ends.is_empty() {
            self.text.extend_from_slice(name)?;
            return Ok(());
        }
        self.text.push(b'.')?;
        self.text.extend_from_slice(name)?;
        Ok(())
    }

    /// Opens a scope in the innermost one.
    pub fn open(&mut self, name: &[u8]) -> Result<(), StimFault>
        ensures ok { (scopes : List (List ℕ)) → IsOpen self.old scopes → OnOk result (IsOpen self.new (scopes ++ inner_path scopes name.now ∷ [])) }
        ensures err { IfErr result (λ e. e ≡ out_of_memory) }
    {
        self.extend(name)?;
        self.ends.push(self.text.len())?;
        Ok(())
    }

    /// Where the path of the innermost scope ends.
    fn last_end(&self) -> usize
        ensures { result ≡ last_end self.now.ends.items }
    {
        let count = self.ends.len();
        if count == 0 { 0 } else { self.ends[count - 1] }
    }

    /// Closes the innermost scope, if one is open.
    pub fn close(&mut self)
        ensures { (scopes : List (List ℕ)) → IsOpen self.old scopes → IsOpen self.new (take (length scopes - 1) scopes) }
    {
        self.ends.pop();
        let end = self.last_end();
        self.text.truncate(end);
    }

    /// The names of all open scopes, joined by dots.
    pub fn text(&self, alloc: Global) -> Result<Vec<u8>, StimFault>
        ensures ok { (scopes : List (List ℕ)) → IsOpen self.now scopes → IfOk result (λ text. text.items ≡ path_of scopes) }
        ensures err { IfErr result (λ e. e ≡ out_of_memory) }
    {
        Ok(Vec::from_slice(alloc, self.text.as_slice())?)
    }
}
