//! What others see of a site without its locks: whether a turn of its block is worth while. It sets the pace of a run; no promise rests
//! on it.

use std::sync::atomic::Ordering::SeqCst;
use std::sync::atomic::{AtomicBool, AtomicU64};

/// Words that all workers read. There is room around them, so that they don't wait for who writes what lies beside them: processors
/// pass memory on in lines of 64 bytes.
#[derive(Drop)]
pub(crate) struct Signs {
    before: [u64; 8],
    /// Up to when nothing will be taken back that the block tells, as far as is known.
    settled: AtomicU64,
    /// The least time of what has come since its last visit began.
    mail: AtomicU64,
    /// What is left first, as its last visit knew.
    next: AtomicU64,
    /// Whether a visit is under way.
    is_visited: AtomicBool,
    /// Whether a worker goes over the blocks from this one on.
    is_claimed: AtomicBool,
    after: [u64; 8],
}

impl Signs {
    /// Those of a block that nobody has visited.
    pub(crate) fn at_start() -> Signs {
        Signs {
            before: [0; 8],
            settled: AtomicU64::new(0),
            mail: AtomicU64::new(0),
            next: AtomicU64::new(0),
            is_visited: AtomicBool::new(false),
            is_claimed: AtomicBool::new(false),
            after: [0; 8],
        }
    }

    /// Up to when nothing will be taken back that the block tells, as far as is known.
    pub(crate) fn settled(&self) -> u64 {
        self.settled.load(SeqCst)
    }

    /// Says up to when nothing will be taken back that the block tells. All that it told below is in the inboxes. The latest that was
    /// said stands.
    pub(crate) fn settle(&self, until: u64) {
        self.settled.fetch_max(until, SeqCst);
    }

    /// A message of a time lies in the inbox.
    pub(crate) fn has_come(&self, time: u64) {
        self.mail.fetch_min(time, SeqCst);
    }

    /// A visit begins, which takes what lies in the inbox.
    pub(crate) fn begins(&self) {
        self.is_visited.store(true, SeqCst);
        self.mail.store(u64::MAX, SeqCst);
    }

    /// The visit ends, after which so much is left first.
    pub(crate) fn ends(&self, next: Option<u64>) {
        self.next.store(next.unwrap_or(u64::MAX), SeqCst);
        self.is_visited.store(false, SeqCst);
    }

    /// Whether a visit is under way.
    pub(crate) fn is_visited(&self) -> bool {
        self.is_visited.load(SeqCst)
    }

    /// When the block has something to do first; the greatest u64, if never.
    pub(crate) fn first(&self) -> u64 {
        self.mail.load(SeqCst).min(self.next.load(SeqCst))
    }

    /// Claims the blocks from this one on, unless another worker has; answers whether it did.
    pub(crate) fn claim(&self) -> bool {
        !self.is_claimed.swap(true, SeqCst)
    }

    /// Gives up a claim.
    pub(crate) fn release(&self) {
        self.is_claimed.store(false, SeqCst);
    }
}
