ghost use Rattle.std.specs.Prelude.{◌≡◌, ◌≤◌, ◌∷◌, [], None, length};
ghost use Rattle.gate_vcd.specs.Declarations.{keyword_of as keyword_by};
ghost use Rattle.gate_vcd.specs.Shown.Words.{texts, token_of};
ghost use Rattle.vcd_bits.specs.Scopes.{Scoped as TextScoped, after_command, declaring, nothing_declared};
ghost use Rattle.vcd_bits.specs.Inner.Held.{AreRead, GoesOn, IsScoped, Notes};

use crate::path::Path;
use gate_vcd::{
    Declared, Keyword, StimCause, StimFault, Word, Words, body_of, declare, ends_declarations,
    keyword_of, opens_command, scope_name,
};
use std::alloc::Global;

/// What the declarations of a dump said so far, and of each variable the path of the scopes that it stands in.
#[derive(Drop)]
pub struct Scoped<'a> {
    pub declared: Declared<'a, 'a>,
    pub open: Path,
    pub paths: Vec<Vec<u8>>,
}

impl<'a> Scoped<'a> {
    /// Nothing was declared yet.
    fn new(alloc: Global) -> Scoped<'a>
        ensures { IsScoped result nothing_declared }
    {
        Scoped {
            declared: Declared::new(alloc, None),
            open: Path::new(alloc),
            paths: Vec::new(alloc),
        }
    }

    /// Follows the scopes in a command, and notes the path of a variable.
    fn note(&mut self, alloc: Global, keyword: Keyword, body: &[&'a [u8]]) -> Result<(), StimFault>
        ensures declared { self.new.declared ≡ self.old.declared }
        ensures noted { Notes keyword (texts body.now) self.old self.new result }
    {
        match keyword {
            Keyword::Scope => self.open.open(scope_name(body)),
            Keyword::Upscope => {
                self.open.close();
                Ok(())
            }
            Keyword::Var => {
                let path = self.open.text(alloc)?;
                self.paths.push(path)?;
                Ok(())
            }
            Keyword::Timescale | Keyword::EndDefinitions | Keyword::Other => Ok(()),
        }
    }

    /// Reads the command that a word opened, and answers whether it ends the declarations.
    fn read_command(
        &mut self,
        alloc: Global,
        words: &mut Words<'a>,
        first: Word<'a>,
    ) -> Result<bool, StimFault>
        ensures shorter { length words.new ≤ length words.old }
        ensures goes_on { (s : TextScoped) → IsScoped self.old s → GoesOn self.new words.new result (declaring s None (token_of first.entry ∷ words.old)) }
    {
        if !opens_command(first.text) {
            return Err(first.fault(StimCause::BadToken));
        }
        let keyword = keyword_of(first.text);
        let body = body_of(alloc, words, first, keyword)?;
        declare(alloc, &mut self.declared, first, &body)?;
        self.note(alloc, keyword, &body)?;
        Ok(ends_declarations(keyword))
    }
}

/// Reads the declarations of a dump.
pub fn read_scoped<'a>(alloc: Global, words: &mut Words<'a>) -> Result<Scoped<'a>, StimFault>
    ensures { AreRead words.new result (declaring nothing_declared None words.old) }
{
    let mut scoped = Scoped::new(alloc);
    while let Some(first) = words.next() {
        let ended = scoped.read_command(alloc, words, first)?;
        if ended {
            return Ok(scoped);
        }
    }
    Ok(scoped)
}
