use warp_stores::Word;

/// A change that a place puts into its queue.
#[derive(Clone, Copy, Debug)]
pub struct Put {
    pub queue: u32,
    pub word: Word,
}
