use crate::rows::{Row, assert_rows};
use std::test::Fail;

const BITS: &str = "INPUT(A[0])\nINPUT(A[1])\nINPUT(A[2])\nY = XOR(A[0], A[2])\n";

const DIGITS: [Row; 11] = [
    Row {
        bench: BITS,
        settings: "",
        text: "$var wire 3 v A [2:0] $end $enddefinitions $end #0 b101 v #3 bz v #5 b10 v #7 1v",
        nets: &["01 3z 50 71 ", "00 3z 51 70 ", "01 3z 50 ", ""],
    },
    Row {
        bench: BITS,
        settings: "",
        text: "$var wire 3 v A [0:2] $end $enddefinitions $end #0 b100 v",
        nets: &["01 ", "00 ", "00 "],
    },
    Row {
        bench: BITS,
        settings: "",
        text: "$var wire 3 v A $end $enddefinitions $end #0 bx1 v",
        nets: &["01 ", "", ""],
    },
    Row {
        bench: BITS,
        settings: "",
        text: "$var wire 3 v A [2:0] $end $enddefinitions $end #0 b01110 v",
        nets: &["00 ", "01 ", "01 "],
    },
    Row {
        bench: BITS,
        settings: "",
        text: "$var wire 3 v A [2:0] $end $var wire 1 s A [2] $end $enddefinitions $end b000 v 1s",
        nets: &["00 ", "00 ", "01 "],
    },
    Row {
        bench: BITS,
        settings: "",
        text: "$var wire 2 u A [1:0] $end $var wire 3 v A [2:0] $end $enddefinitions $end b11 u b000 v",
        nets: &["01 ", "01 ", "00 "],
    },
    Row {
        bench: BITS,
        settings: "",
        text: "$var real 3 r A [2:0] $end $var reg 8 v \\A[7:0] $end $enddefinitions $end b110 v r1 r",
        nets: &["00 ", "01 ", "01 "],
    },
    Row {
        bench: BITS,
        settings: "",
        text: "$var wire 03 v A [02:0] $end $enddefinitions $end #1 B1X v #1 b0z v #2 bZ v",
        nets: &["1z ", "10 2z ", "10 2z "],
    },
    Row {
        bench: BITS,
        settings: "",
        text: "$var wire 4294967296 v A [4294967295:0] $end $enddefinitions $end b1 v",
        nets: &["01 ", "00 ", "00 "],
    },
    Row {
        bench: "INPUT(A[3])\nINPUT(A[0])\nINPUT(A[1])\nINPUT(A[2])\n",
        settings: "",
        text: "$var wire 4 v A [3:0] $end $enddefinitions $end #0 b1010 v #1 b1 v #2 bx1 v #2 b0 v #3 bz v #4 0v #5 b11 v #5 b100000 v",
        nets: &[
            "01 10 3z 40 ",
            "00 11 20 3z 40 ",
            "01 10 3z 40 ",
            "00 3z 40 ",
        ],
    },
    Row {
        bench: "INPUT(A[0])\nINPUT(A[1])\nINPUT(A[2])\nINPUT(A[3])\nINPUT(A[4])\nINPUT(A[5])\nINPUT(A[6])\nINPUT(A[7])\nINPUT(A[8])\nINPUT(A[9])\n",
        settings: "",
        text: "$var wire 10 t B [9:0] $end $var wire 4 p A [7:4] $end $var wire 4 q A [2:5] $end $var wire 10 r A [9:0] $end $var wire 2 s A [4:3] $end $enddefinitions $end bz t b0101 p b0001 q b1110101111 r b01 s",
        nets: &[
            "01 ", "01 ", "00 ", "00 ", "01 ", "00 ", "01 ", "00 ", "01 ", "01 ",
        ],
    },
];

#[test]
fn gives_each_bit_its_digit(rt: HostRuntime) -> Result<(), Fail> {
    assert_rows(&rt, rt.alloc(), &DIGITS)
}

const SCOPES: &str =
    "$scope module tb $end $var reg 3 u A [2:0] $end $scope module dut $end $var wire 3 v A [0:2] $end $upscope $end $upscope $end $enddefinitions $end b100 u b100 v";

static COUNTED: [Row; 3] = [
    Row {
        bench: BITS,
        settings: "",
        text: SCOPES,
        nets: &["00 "],
    },
    Row {
        bench: BITS,
        settings: "scope = \"tb\"",
        text: SCOPES,
        nets: &["00 "],
    },
    Row {
        bench: BITS,
        settings: "scope = \"tb.dut\"",
        text: SCOPES,
        nets: &["01 "],
    },
];

#[test]
fn takes_bits_of_the_scope_alone(rt: HostRuntime) -> Result<(), Fail> {
    assert_rows(&rt, rt.alloc(), &COUNTED)
}
