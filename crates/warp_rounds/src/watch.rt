/// Is told how far a run has come.
pub trait Watch {
    /// Everything before a time is committed: a round led to this floor. It is past the horizon at the end.
    fn floor(&mut self, floor: u64);
}

/// A watch that does nothing.
#[derive(Drop)]
pub struct NoWatch;

impl Watch for NoWatch {
    fn floor(&mut self, _floor: u64) {}
}
