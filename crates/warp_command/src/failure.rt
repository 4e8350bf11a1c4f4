//! Why the program ends without a text on standard output.
ghost use Rattle.std.specs.Prelude.{◌≡◌, Some};
ghost use Rattle.warp_command.specs.Failures.{failure_text, failure_status, form_name};
ghost use Rattle.warp_command.specs.declared.failure.Failure.TheVariants as failures;
ghost use Rattle.warp_text.specs.declared.fault.Fault.TheVariants as faults;

use std::alloc::AllocError;
use std::fmt;
use vcd_compare::CompareFault;
use warp_text::Fault;

/// What the words of a comparison lack.
#[derive(Clone, Copy, Debug, PartialEq, Eq)]
pub enum Form {
    /// Two scopes.
    Scopes,
    /// A time by which the other dump is looked at later or earlier.
    Offset,
    /// A first time and a step.
    Strobes,
    /// Of two dumps one that isn't standard input.
    File,
}

impl Form {
    /// How it is written.
    pub fn name(self) -> &'static str
        ensures { result.now ≡ form_name self }
    {
        match self {
            Form::Scopes => "--scope E=A",
            Form::Offset => "--offset T",
            Form::Strobes => "--at FIRST:STEP",
            Form::File => "a file beside -",
        }
    }
}

/// Why the program ends without a text on standard output.
#[derive(Debug, Drop)]
pub enum Failure<'a> {
    /// `clap` refuses the line; its text says why, and ends with a line's end.
    Line(String),
    /// A word of the line isn't text.
    NotText,
    /// The line lacks what its command requires, or has a number out of its limits. `clap` refuses such a line before.
    Incomplete,
    /// A run lacks the name of its stimulus.
    StimulusExpected,
    /// A run whose texts are joined names a stimulus.
    StimulusNotExpected,
    /// An option or an argument hasn't this form.
    Expected(Form),
    /// The text of this name can't be read.
    Unreadable(&'a str),
    /// A text is refused, or memory ran out.
    Fault(Fault),
    /// A text is refused, or a schedule, and this is told behind the fault's line.
    Explained { fault: Fault, text: String },
    /// Two dumps aren't compared.
    NotCompared(CompareFault),
    /// Two dumps aren't compared, and this is told behind the fault's line.
    ComparisonExplained { fault: CompareFault, text: String },
    /// Two dumps differ, which this text tells on standard output.
    Differ(Vec<u8>),
    /// Standard output doesn't take what is written.
    Unwritten,
    /// The file of this name doesn't take what is written.
    Unkept(&'a str),
}

impl Failure<'_> {
    /// The program's exit status: 2 for a refused line, 4 for a file or a write, 5 for dumps that differ, else the fault's.
    pub fn status(&self) -> u8
        ensures { result ≡ failure_status self.now }
    {
        match self {
            Failure::Line(_) | Failure::NotText | Failure::Incomplete => 2,
            Failure::StimulusExpected | Failure::StimulusNotExpected => 2,
            Failure::Expected(_) => 2,
            Failure::Unreadable(_) | Failure::Unwritten | Failure::Unkept(_) => 4,
            Failure::Fault(fault) | Failure::Explained { fault, .. } => fault.status(),
            Failure::NotCompared(fault) | Failure::ComparisonExplained { fault, .. } => {
                fault.status()
            }
            Failure::Differ(_) => 5,
        }
    }
}

/// The text on standard error, with its line's end.
impl fmt::Display for Failure<'_> {
    ghost output = { λ f. Some (failure_text f) };

    fn fmt<W: fmt::Write>(&self, f: &mut fmt::Formatter<W>) -> fmt::Result {
        match self {
            Failure::Line(text) => f.write_str(text.as_str()),
            Failure::NotText => f.write_str("a word is not text\n"),
            Failure::Incomplete => f.write_str("the line is incomplete\n"),
            Failure::StimulusExpected => f.write_str("stimulus expected\n"),
            Failure::StimulusNotExpected => f.write_str("stimulus not expected\n"),
            Failure::Expected(form) => {
                let form = form.name();
                write!(f, "{form} expected\n")
            }
            Failure::Unreadable(name) => write!(f, "cannot read {name}\n"),
            Failure::Fault(fault) => write!(f, "{fault}\n"),
            Failure::Explained { fault, text } => write!(f, "{fault}\n{text}"),
            Failure::NotCompared(fault) => write!(f, "{fault}\n"),
            Failure::ComparisonExplained { fault, text } => write!(f, "{fault}\n{text}"),
            Failure::Differ(_) => f.write_str("the dumps differ\n"),
            Failure::Unwritten => f.write_str("cannot write\n"),
            Failure::Unkept(name) => write!(f, "cannot write {name}\n"),
        }
    }
}

impl From<Fault> for Failure<'_> {
    ghost from_gives = { λ fault failure. failure ≡ failures.Fault fault };

    fn from(fault: Fault) -> Self {
        Failure::Fault(fault)
    }
}

impl From<AllocError> for Failure<'_> {
    ghost from_gives = { λ _ failure. failure ≡ failures.Fault faults.Memory };

    fn from(_: AllocError) -> Self {
        Failure::Fault(Fault::Memory)
    }
}
