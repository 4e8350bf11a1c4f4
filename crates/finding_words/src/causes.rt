//! What is wrong with a text of another kind than the expected one.
ghost use Rattle.std.specs.Prelude.{◌≡◌, IfOk};
ghost use Rattle.finding_words.specs.Looks.{kind_name, manner, IsMistaken};

use crate::finding::{Finding, Said};
use crate::look::Look;
use std::alloc::{AllocError, Global};

/// What a text is expected to be.
#[derive(Clone, Copy, PartialEq, Eq)]
pub enum Kind {
    Bench,
    Settings,
    Stimulus,
    Schedule,
    Names,
    Dump,
    Map,
}

impl Kind {
    /// What it is called, with its article.
    fn name(self) -> &'static str
        ensures { result.now ≡ kind_name self }
    {
        match self {
            Kind::Bench => "the bench",
            Kind::Settings => "the settings' text",
            Kind::Stimulus => "the stimulus",
            Kind::Schedule => "the schedule",
            Kind::Names => "a list of nets",
            Kind::Dump => "a dump",
            Kind::Map => "the map",
        }
    }

    /// What to do with a text that looks like this.
    fn advice(self, look: Look) -> &'static str {
        match (self, look) {
            (Kind::Dump, Look::Bench) =>
                "simulate it first: warp_sim run --until T BENCH STIMULUS > DUMP",
            (Kind::Dump, Look::Verilog | Look::Vhdl) =>
                "simulate it first: a test bench with $dumpvars writes a dump",
            (Kind::Dump | Kind::Map, Look::Settings) => "compare reads no settings",
            (Kind::Map, Look::Dump | Look::PortDump) =>
                "the dumps are EXPECTED and ACTUAL, which stand behind the options",
            (Kind::Map, Look::Bench | Look::Verilog | Look::Vhdl) =>
                "a line of the map is the name in EXPECTED, white space, and the name in ACTUAL",
            _ => look.advice(),
        }
    }
}

/// How a text is expected in place of one that looks like this.
fn manner(look: Look) -> &'static str
    ensures { result.now ≡ manner look }
{
    match look {
        Look::ByteOrderMark | Look::Utf16 => " is expected in UTF-8",
        Look::Gzip => " is expected as plain text",
        _ => " is expected here",
    }
}

/// A text that looks like this stands where one of that kind is expected.
pub fn mistaken(alloc: Global, look: Look, kind: Kind) -> Result<Said, AllocError>
    ensures { IfOk result (λ said. IsMistaken look kind said) }
{
    let found = look.name();
    let expected = kind.name();
    let manner = manner(look);
    let cause = format!(in alloc; "this is {found}, and {expected}{manner}")?;
    let help = String::from_str(alloc, kind.advice(look))?;
    Ok(Said::of_texts(0, cause, help))
}

/// The same, told at the beginning of the text.
pub fn misplaced(alloc: Global, look: Look, kind: Kind) -> Result<Finding, AllocError>
    ensures at { IfOk result (λ finding. finding.at ≡ 0) }
    ensures said { IfOk result (λ finding. IsMistaken look kind finding.said) }
{
    Ok(Finding {
        at: 0,
        said: mistaken(alloc, look, kind)?,
    })
}
