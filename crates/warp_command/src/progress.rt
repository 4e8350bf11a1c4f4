//! How far a run has come.

use crate::texts::Texts;
use warp_rounds::Watch;

/// Tells how far a run has come, at most once for each hundredth of its time.
#[derive(Drop)]
pub(crate) struct Progress<'a, T: Texts> {
    texts: &'a T,
    until: u64,
    /// The hundredth that is told next, if any is; none of a run that isn't to be told of.
    next: Option<u64>,
    /// Before this time nothing is told.
    from: u64,
    has_told: bool,
}

impl<'a, T: Texts> Progress<'a, T> {
    /// Nothing is told yet of a run up to a time, nor will be where it isn't asked for.
    pub(crate) fn new(texts: &'a T, until: u64, is_asked: bool) -> Progress<'a, T> {
        Progress {
            texts,
            until,
            next: if is_asked { Some(0) } else { None },
            from: 0,
            has_told: false,
        }
    }

    /// Ends what was told.
    pub(crate) fn end(self) {
        if self.has_told {
            self.texts.arrive();
        }
    }
}

/// The hundredth of a time in which an earlier one lies.
fn hundredth(time: u64, until: u64) -> u64 {
    if time >= until {
        return 100;
    }
    time.saturating_mul(100) / until
}

impl<T: Texts> Watch for Progress<'_, T> {
    fn floor(&mut self, floor: u64) {
        let Some(next) = self.next else {
            return;
        };
        if floor < self.from {
            return;
        }
        let time = floor.min(self.until);
        let now = hundredth(time, self.until);
        if now >= next {
            self.texts.come_to(time, self.until);
            let later = now.saturating_add(1);
            self.next = Some(later);
            self.from = later.saturating_mul(self.until) / 100;
            self.has_told = true;
        }
    }
}
