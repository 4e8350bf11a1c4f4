//! The tests of `warp_block`, by its public calls: rows whose expected values come from outside. They stand apart, since a
//! crate that has tests is proved a second time with them.
#![tactic(auto)]

#[cfg(test)]
mod anew_tests;
#[cfg(test)]
mod block_tests;
#[cfg(test)]
mod commit_tests;
#[cfg(test)]
mod forged_tests;
#[cfg(test)]
mod give_tests;
#[cfg(test)]
mod memory_tests;
#[cfg(test)]
mod opening_tests;
#[cfg(test)]
mod part_tests;
#[cfg(test)]
mod read_tests;
