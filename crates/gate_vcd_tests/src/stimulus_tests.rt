use crate::rows::{Row, assert_changes, assert_rows, circuit, stimulus};
use gate_stimulus::{Stimulus, Timescale, Unit};
use gate_values::Logic;
use std::alloc::Global;
use std::test::Fail;

const ONE: &str = "INPUT(A)\n";

const TWO: &str = "INPUT(A)\nINPUT(B)\n";

#[test]
fn accepts_a_whole_text(rt: HostRuntime) -> Result<(), Fail> {
    let text =
        "$timescale 10 us $end $scope module top $end $var wire 1 ! A $end $var wire 1 ! B $end $var real 64 r f $end $upscope $end $enddefinitions $end 1! #5 $dumpall 0! r1.5 r $end #5 z!";
    let stimulus = stimulus(rt.alloc(), TWO, "", text)?;
    assert!(rt; stimulus.at(1, 4) == Logic::One && stimulus.at(1, 6) == Logic::Z);
    assert!(rt; stimulus.timescale() == MICROSECONDS);
    assert_changes(&rt, rt.alloc(), &stimulus, &["01 5z ", "01 5z ", ""])
}

const MICROSECONDS: Timescale = Timescale {
    number: 10,
    unit: Unit::Us,
};

fn fits(alloc: Global, stimulus: &Stimulus, bench: &str) -> Result<bool, Fail> {
    let circuit = circuit(alloc, bench, "")?;
    let fits = stimulus.fits(&circuit);
    drop(circuit);
    Ok(fits)
}

/// Benches, and whether a stimulus of one input fits them.
static FITTING: [(&str, bool); 3] = [
    ("INPUT(N)\n", true),
    ("INPUT(A)\nY = NOT(A)\n", false),
    ("Y = NOT(Y)\n", false),
];

#[test]
fn tells_whether_it_fits(rt: HostRuntime) -> Result<(), Fail> {
    let stimulus = stimulus(rt.alloc(), ONE, "", "$var wire 1 ! A $end")?;
    for (bench, want) in &FITTING {
        let fits = fits(rt.alloc(), &stimulus, bench)?;
        assert!(rt; fits == *want, "{bench}");
    }
    Ok(())
}

static NAMES: [Row; 5] = [
    Row {
        bench: ONE,
        settings: "",
        text: "$var real 64 ! A $end $var wire 1 \" A [0:0] $end $enddefinitions $end #0 1! 0\"",
        nets: &["00 "],
    },
    Row {
        bench: ONE,
        settings: "",
        text: "$var wire 001 ! A [0:0] $end $var wire 1 # A $end $enddefinitions $end 1! 0#",
        nets: &["01 "],
    },
    Row {
        bench: ONE,
        settings: "",
        text: "$var wire 1 ! \\A $end $enddefinitions $end #2 bx01 !",
        nets: &["21 "],
    },
    Row {
        bench: "INPUT(\\A)\n",
        settings: "",
        text: "$var wire 1 ! \\\\A $end $enddefinitions $end 1!",
        nets: &["01 "],
    },
    Row {
        bench: ONE,
        settings: "",
        text: "$var wire 1 ! A $end $enddefinitions $end 0! 1! #2 0! 1! #2 0! #3 b01x1 ! bz0 ! #4 bZ !",
        nets: &["01 20 4z "],
    },
];

#[test]
fn names_inputs_by_their_reference(rt: HostRuntime) -> Result<(), Fail> {
    assert_rows(&rt, rt.alloc(), &NAMES)
}

const SCOPES: &str =
    "$scope module top $end $var wire 1 ! A $end $scope module dut $end $var wire 1 # A $end $upscope $end $upscope $end $scope module top $end $scope module dut $end $upscope $end $upscope $end $var wire 1 & A $end $enddefinitions $end 0! 1# z&";

static COUNTED: [Row; 4] = [
    Row {
        bench: ONE,
        settings: "",
        text: SCOPES,
        nets: &["00 "],
    },
    Row {
        bench: ONE,
        settings: "scope = \"top\"",
        text: SCOPES,
        nets: &["00 "],
    },
    Row {
        bench: ONE,
        settings: "scope = \"top.dut\"",
        text: SCOPES,
        nets: &["01 "],
    },
    Row {
        bench: ONE,
        settings: "scope = \"\"",
        text: SCOPES,
        nets: &["0z "],
    },
];

#[test]
fn counts_the_scope_that_is_asked_for(rt: HostRuntime) -> Result<(), Fail> {
    assert_rows(&rt, rt.alloc(), &COUNTED)
}
