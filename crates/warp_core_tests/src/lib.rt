//! The tests of `warp_core`, by its public calls: rows whose expected values come from outside, and calls that are drawn
//! from a seed. They stand apart, since a crate that has tests is proved a second time with them.
#![tactic(auto)]

#[cfg(test)]
mod drawn_tests;
#[cfg(test)]
mod driver_tests;
#[cfg(test)]
mod flight_tests;
#[cfg(test)]
mod forged_tests;
#[cfg(test)]
mod gather_tests;
#[cfg(test)]
mod given;
#[cfg(test)]
mod schedule_tests;
#[cfg(test)]
mod world_tests;
