//! The tests of `warp_text` and `warp_command`, by their public calls: what the program itself doesn't show, which `examples/test_lines`
//! plays. They stand apart, since a crate that has tests is proved a second time with them.
#![tactic(auto)]

#[cfg(test)]
mod meeting_tests;
#[cfg(test)]
mod program_tests;
#[cfg(test)]
mod told;
