//! What a command line asks for. Each command may ask for an explanation behind the line of a refused text.
use vcd_compare::Options as Comparing;
use warp_text::Options;

/// What the words of a command line ask for.
#[derive(Debug, Drop)]
pub enum Request<'a> {
    /// To be shown this text.
    Help(String),
    Run(Run<'a>),
    Replay(Replay<'a>),
    Check(Check<'a>),
    Nets(Listing<'a>),
    Compare(Comparison<'a>),
}

/// Which nets a dump tells.
#[derive(Clone, Copy, Debug)]
pub enum Only<'a> {
    All,
    /// The outputs of the circuit.
    Outputs,
    /// Those that the text of this name names.
    Named(&'a str),
}

/// To be shown the dump of a circuit.
#[derive(Clone, Copy, Debug)]
pub struct Run<'a> {
    pub options: Options,
    pub explains: bool,
    pub settings: Option<&'a str>,
    pub only: Only<'a>,
    /// The name of the file that is to get what is counted of the run.
    pub stats: Option<&'a str>,
    /// Whether to tell how far the run has come.
    pub progress: bool,
    pub sources: Sources<'a>,
}

/// Where a run's bench and stimulus stand: both in standard input, or in texts of these names.
#[derive(Clone, Copy, Debug)]
pub enum Sources<'a> {
    Joined,
    Apart { bench: &'a str, stimulus: &'a str },
}

/// To be shown the dump of a circuit whose blocks play a schedule. Each of the texts has a name; of the options, workers
/// and window have no effect.
#[derive(Clone, Copy, Debug)]
pub struct Replay<'a> {
    pub options: Options,
    pub explains: bool,
    pub settings: Option<&'a str>,
    pub only: Only<'a>,
    pub bench: &'a str,
    pub stimulus: &'a str,
    pub schedule: &'a str,
}

/// To be shown how many parts a circuit has.
#[derive(Clone, Copy, Debug)]
pub struct Check<'a> {
    pub explains: bool,
    pub settings: Option<&'a str>,
    pub bench: &'a str,
}

/// To be shown what each net of a circuit is.
#[derive(Clone, Copy, Debug)]
pub struct Listing<'a> {
    pub explains: bool,
    pub settings: Option<&'a str>,
    pub bench: &'a str,
}

/// To be shown where two dumps differ, whose bits are paired by their names or as a text says: of at most so many bits (of
/// all at 0) a line each.
#[derive(Clone, Copy, Debug)]
pub struct Comparison<'a> {
    pub options: Comparing<'a>,
    pub explains: bool,
    pub map: Option<&'a str>,
    pub most: u32,
    pub expected: &'a str,
    pub actual: &'a str,
}
