//! The tests of `warp_rounds`, by its public calls: rows whose expected values come from outside. They stand apart, since a
//! crate that has tests is proved a second time with them.
#![tactic(auto)]

#[cfg(test)]
mod gate_tests;
#[cfg(test)]
mod round_tests;
#[cfg(test)]
mod run_tests;
#[cfg(test)]
mod site_tests;
