//! The texts of a comparison.
use text_places::Source;

/// Two dumps, and the text that pairs their bits, if there is one.
#[derive(Clone, Copy)]
pub struct Compared<'a> {
    pub expected: Source<'a>,
    pub actual: Source<'a>,
    pub map: Option<Source<'a>>,
}
