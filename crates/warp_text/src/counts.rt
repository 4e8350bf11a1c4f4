//! How many parts a circuit has.
ghost use Rattle.std.specs.Prelude.{◌≡◌, Some, IfOk, string_bytes};
ghost use Rattle.warp_text.specs.CountLines.{count_line, count_lines};

use gate_netlist::Counts;
use std::alloc::{AllocError, Global};
use std::fmt;

/// A line of the print.
#[derive(Clone, Copy)]
struct CountLine {
    word: &'static str,
    number: u32,
}

impl fmt::Display for CountLine {
    ghost output = { λ line. Some (count_line line.word.now line.number) };

    #[tactic(auto, unfolding(crate::specs::CountLines::count_line))]
    fn fmt<W: fmt::Write>(&self, f: &mut fmt::Formatter<W>) -> fmt::Result {
        let word = self.word;
        let number = self.number;
        write!(f, "{word} {number}\n")
    }
}

fn count_line(word: &'static str, number: u32) -> CountLine
    ensures { result ≡ record { word = word.entry; number = number } }
{
    CountLine { word, number }
}

/// A line for each number, with its word before it.
#[derive(Clone, Copy)]
struct CountLines {
    counts: Counts,
}

impl fmt::Display for CountLines {
    ghost output = { λ lines. Some (count_lines lines.counts) };

    fn fmt<W: fmt::Write>(&self, f: &mut fmt::Formatter<W>) -> fmt::Result {
        let nets = count_line("nets", self.counts.nets);
        let inputs = count_line("inputs", self.counts.inputs);
        let gates = count_line("gates", self.counts.gates);
        let flops = count_line("flip-flops", self.counts.flops);
        let outputs = count_line("outputs", self.counts.outputs);
        let blocks = count_line("blocks", self.counts.blocks);
        write!(f, "{nets}{inputs}{gates}{flops}{outputs}{blocks}")
    }
}

/// The six lines that the command `check` prints.
pub fn count_text(alloc: Global, counts: Counts) -> Result<String, AllocError>
    ensures { IfOk result (λ text. string_bytes text ≡ count_lines counts) }
{
    CountLines { counts }.to_string(alloc)
}
