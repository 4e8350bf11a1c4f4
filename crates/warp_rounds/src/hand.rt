//! What a round's two shared words mean, and the kinds of atomic step on them.
//!
//! Word 0 counts the draws that found a block and those that found none left; the number that a draw finds there is
//! the block that it draws. Word 1 is the least time reported. Each seat of the table has a `Hand`: what its worker
//! has drawn and reported. The rule that holds between any two steps is `HoldsRule`. There are these kinds of step:
//!
//! - The table is made, with the words 0 and the greatest u64, and with a first seat. Its hand is empty and has all
//!   shares, one for each seat that is to be handed out.
//! - A seat is split off the first one, which gives it a share (`Deal`; it loads word 0). When all are split off, the
//!   first seat is empty and without a share, and is let go.
//! - A draw adds 1 to word 0 (`Draw`).
//! - A report lowers word 1 to a time, if that is less (`Report`).
//! - For the end an empty seat is made by one load of word 0 (`Open`), as a round that kept its first seat could not
//!   be lent to several threads.
//! - A seat is joined to it, which takes over what that seat drew and reported, and its share (`Collect`; it loads
//!   word 0). The joined seat's hand is spent.
//! - The table is closed, and its words are read.

use atomic_table::{Join, Play, Split, TableRule};
use std::collections::LinkedList;

/// How many blocks and seats a round has. It is fixed when the table is made.
#[derive(Clone, Copy)]
pub struct Plan {
    pub blocks: u64,
    pub seats: u64,
}

/// What a seat of the table has in hand. No value of it is made: proofs alone speak of it.
pub struct Hand {
    /// The number of blocks of the round.
    pub blocks: u64,
    /// How many of the seats that are handed out it stands for.
    pub shares: u64,
    /// How many draws found no block left.
    pub marks: u64,
    /// The blocks drawn, in order.
    pub draws: LinkedList<u32>,
    /// The least time reported.
    pub least: u64,
}

/// The rule of the two words.
pub struct RoundRule;

impl TableRule<(), Hand, Plan> for RoundRule {
    ghost use Rattle.warp_rounds.specs.Inner.Rule.{HoldsRule, empty_hand};

    ghost holds = { λ plan. HoldsRule plan.blocks plan.seats };

    ghost first = { λ plan. empty_hand plan.blocks plan.seats };
}

/// A draw.
pub struct Draw;

impl Play<(), Hand> for Draw {
    ghost use Rattle.std.specs.Prelude.{◌≡◌};
    ghost use Rattle.warp_rounds.specs.Inner.Rule.{after_draw};

    ghost then = { λ step before found after. (after.0 ≡ after_draw found before.0) × (after.1 ≡ before.1) };
}

/// A report of a time.
pub struct Report;

impl Play<(), Hand> for Report {
    ghost use Rattle.std.specs.Prelude.{◌≡◌};
    ghost use Rattle.warp_rounds.specs.Inner.Rule.{after_report};

    ghost then = { λ step before found after. (after.0 ≡ after_report step.first before.0) × (after.1 ≡ before.1) };
}

/// A seat is split off.
pub struct Deal;

impl Split<Hand> for Deal {
    ghost use Rattle.warp_rounds.specs.Inner.Rule.{after_deal, empty_hand};

    ghost left = { after_deal };

    ghost right = { λ hand. empty_hand hand.blocks 1 };
}

/// An empty seat is made.
pub struct Open;

impl Play<(), Hand> for Open {
    ghost use Rattle.std.specs.Prelude.{◌≡◌};
    ghost use Rattle.warp_rounds.specs.Inner.Rule.{spent_hand};

    ghost then = { λ step before found after. after.0 ≡ spent_hand };
}

/// A seat is joined to another.
pub struct Collect;

impl Join<Hand> for Collect {
    ghost use Rattle.warp_rounds.specs.Inner.Rule.{both_hands, spent_hand};

    ghost both = { both_hands };

    ghost spent = { spent_hand };
}
