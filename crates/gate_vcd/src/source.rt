/// Where a net takes its values from: the changes of a code, and in their digits a place, counted from the
/// right and from 0.
#[derive(Clone, Copy, Debug, PartialEq, Eq, Hash)]
pub struct Source<'a> {
    pub code: &'a [u8],
    pub place: u64,
}
