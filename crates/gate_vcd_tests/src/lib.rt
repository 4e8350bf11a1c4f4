//! The tests of `gate_stimulus`, `gate_vcd`, `vcd_dumps`, `vcd_bits` and `vcd_only`, by their public calls, and of the causes
//! of `only_nets`: rows whose expected values come from outside. Stimuli that are refused are played by `examples/test_lines`.
//! They stand apart, since a crate that has tests is proved a second time with them, and in one crate, since each is checked
//! over all that it stands on.
#![tactic(auto)]

#[cfg(test)]
mod bits_tests;
#[cfg(test)]
mod bus_tests;
#[cfg(test)]
mod cause_tests;
#[cfg(test)]
mod dump_tests;
#[cfg(test)]
mod memory_tests;
#[cfg(test)]
mod real_dump_tests;
#[cfg(test)]
mod rows;
#[cfg(test)]
mod sink_tests;
#[cfg(test)]
mod stimulus_tests;
#[cfg(test)]
mod told_tests;
#[cfg(test)]
mod vector_tests;
