//! The part of a circuit that a cut gives a block.
//!
//! A [`Part`] has a block's own nets with what sets them, the nets that their gates read, and for each own net the other
//! blocks that read it. It takes memory by these nets, whatever the size of the circuit. Its nets ascend, and each has a
//! place, its number among them; [`Part::wiring`] and [`Part::contents`] give the gates over places, and
//! [`places_stand`] is the law that places show and hold what their nets do.
//!
//! The definitions stand in `specs/`: `Portion` for what a part is, `PartOf` for that of a circuit, a cut and a block,
//! `SamePart` for when two parts are equal, `Placing` for places.
#![tactic(auto)]

mod cell;
mod laws;
mod part;

pub use laws::places_stand;
pub use part::Part;
