//! The tests of `gate_netlist`, by its public calls: of a circuit what no command of the program shows; the rest is played by
//! `examples/test_lines`. They stand apart, since a crate that has tests is proved a second time with them.
#![tactic(auto)]

#[cfg(test)]
mod circuit_tests;
