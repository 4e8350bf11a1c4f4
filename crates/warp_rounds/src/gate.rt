use warp_block::{Block, Logs};

/// Is told when a turn begins and when it ends, under the lock of the block that takes it.
pub trait Gate<L: Logs> {
    /// The turn begins. The block is as the lock kept it.
    fn entered(&self, block: &Block<L>);

    /// The turn ends. The block is as the lock will keep it.
    fn leaving(&self, block: &Block<L>);
}

/// A gate that does nothing.
pub struct NoGate;

impl<L: Logs> Gate<L> for NoGate {
    fn entered(&self, _block: &Block<L>) {}

    fn leaving(&self, _block: &Block<L>) {}
}
