use super::block_tests::part_of;
use std::alloc::Global;
use std::process::Abort;
use std::test::Fail;
use warp_block::Part;

/// Whether block 1 of a circuit that two texts give is a part.
fn is_part(part: &Part, alloc: Global, bench: &str, settings: &str) -> Result<bool, Fail> {
    let other = part_of(alloc, bench, settings, 1)?;
    let is_same = *part == other;
    drop(other);
    Ok(is_same)
}

/// The part of block 1 that two texts give is that of these rows' texts, where they say so.
fn assert_parts(
    rt: &impl Abort,
    alloc: Global,
    part: &Part,
    rows: &[(&str, &str, bool)],
) -> Result<(), Fail> {
    for (bench, settings, same) in rows {
        let is_same = is_part(part, alloc, bench, settings)?;
        assert!(rt; is_same == *same, "{bench}{settings}");
    }
    Ok(())
}

const BENCH: &str = "INPUT(P)\nA = BUFF(P)\nY = AND(A, P)\nZ = NOT(Y)\n";

const BLOCKS: &str = "[block]\nA = 0\nY = 1\nZ = 2\n";

const OTHER_PINS: &str = "INPUT(P)\nA = BUFF(P)\nY = AND(P, A)\nZ = NOT(Y)\n";

const OTHER_KIND: &str = "INPUT(P)\nA = BUFF(P)\nY = OR(A, P)\nZ = NOT(Y)\n";

/// Another gate in another block is no matter of block 1.
const OTHER_GATE: &str = "INPUT(P)\nA = BUFF(P)\nY = AND(A, P)\nZ = BUFF(Y)\n";

/// Benches and settings, and whether block 1 is that of the first row.
static PARTS: [(&str, &str, bool); 7] = [
    (BENCH, BLOCKS, true),
    (OTHER_GATE, BLOCKS, true),
    (OTHER_KIND, BLOCKS, false),
    (OTHER_PINS, BLOCKS, false),
    (BENCH, "[net]\nY = 2\n[block]\nA = 0\nY = 1\nZ = 2\n", false),
    (BENCH, "[block]\nA = 0\nY = 1\nZ = 3\n", false),
    (BENCH, "[block]\nA = 1\nY = 1\nZ = 2\n", false),
];

#[test]
fn parts_are_compared_by_what_they_say(rt: HostRuntime) -> Result<(), Fail> {
    let part = part_of(rt.alloc(), BENCH, BLOCKS, 1)?;
    let compared = assert_parts(&rt, rt.alloc(), &part, &PARTS);
    drop(part);
    compared
}

const FLOPS: &str = "INPUT(D)\nA = DFF(D)\nQ = DFF(A)\n";

const CONTENTS: &str = "[block]\nA = 0\nQ = 1\n[init]\nQ = \"0\"\n";

/// Benches and settings, and whether block 1 is that of the first row.
static FLOP_PARTS: [(&str, &str, bool); 4] = [
    (FLOPS, CONTENTS, true),
    (
        FLOPS,
        "[block]\nA = 0\nQ = 1\n[init]\nA = \"1\"\nQ = \"0\"\n",
        true,
    ),
    (FLOPS, "[block]\nA = 0\nQ = 1\n[init]\nQ = \"1\"\n", false),
    (FLOPS, "[block]\nA = 0\nQ = 1\n", false),
];

#[test]
fn parts_are_compared_by_what_flip_flops_begin_with(rt: HostRuntime) -> Result<(), Fail> {
    let part = part_of(rt.alloc(), FLOPS, CONTENTS, 1)?;
    let compared = assert_parts(&rt, rt.alloc(), &part, &FLOP_PARTS);
    drop(part);
    compared
}
