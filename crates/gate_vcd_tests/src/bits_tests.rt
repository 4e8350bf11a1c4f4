use gate_vcd::{StimCause, StimFault};
use std::alloc::Global;
use std::test::Fail;
use vcd_bits::Dump;

const TEXT: &str =
    "$timescale 10 ps $end $scope module top $end $var wire 1 ! CK $end $scope module u $end $var wire 3 v A [2:0] $end $var wire 1 w A [1] $end $var wire 1 o O [0:0] $end $var real 64 r f $end $upscope $end $scope module use $end $var wire 1 e E $end $enddefinitions $end #0 1! #4 b10 v #7 bx v #9";

/// The names of the bits of a scope, each behind a blank.
fn names(alloc: Global, scope: Option<&[u8]>) -> Result<Vec<u8>, Fail> {
    let dump = Dump::open(alloc, TEXT.as_bytes(), scope)?;
    let mut names = Vec::new(alloc);
    for number in 0..dump.table.count() {
        if let Some((name, _)) = dump.table.bit(number) {
            names.push(b' ')?;
            names.extend_from_slice(name)?;
        }
    }
    Ok(names)
}

#[test]
fn bits_by_their_names(rt: HostRuntime) -> Result<(), Fail> {
    let first = names(rt.alloc(), None)?;
    assert!(rt; first.as_slice() == b" CK u.A[2] u.A[1] u.A[0] u.O use.E".as_slice());
    let inner = names(rt.alloc(), Some(b"top.u"))?;
    assert!(rt; inner.as_slice() == b" A[2] A[1] A[0] O".as_slice());
    let all = names(rt.alloc(), Some(b""))?;
    assert!(rt;
        all.as_slice() == b" top.CK top.u.A[2] top.u.A[1] top.u.A[0] top.u.O top.use.E".as_slice()
    );
    Ok(())
}

#[test]
fn sources_and_the_last_stamp(rt: HostRuntime) -> Result<(), Fail> {
    let mut dump = Dump::open(rt.alloc(), TEXT.as_bytes(), None)?;
    let source = dump.source(b"u.A[1]").ok_or("no bit")?;
    assert!(rt; source.code == b"v".as_slice() && source.place == 1);
    assert!(rt; dump.source(b"A[1]").is_none());
    let followed = dump.follow(rt.alloc(), &[])?;
    assert!(rt; followed.last == 9);
    Ok(())
}

#[test]
fn a_fault_of_the_declarations(rt: HostRuntime) -> Result<(), Fail> {
    match Dump::open(rt.alloc(), b"$scope module top $end $var wire 1 ! A", None) {
        Ok(_) => assert!(rt; false),
        Err(fault) => assert!(rt; fault == UNCLOSED),
    }
    Ok(())
}

const UNCLOSED: StimFault = StimFault {
    at: 23,
    cause: StimCause::UnclosedCommand,
};
