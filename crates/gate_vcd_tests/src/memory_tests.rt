use crate::dump_tests::{DUMP, write};
use crate::rows::circuit;
use byte_sinks::{Grow, Sink};
use gate_vcd::{StimCause, StimFault, read_stimulus};
use std::test::Fail;

const FALLS: StimFault = StimFault {
    at: 48,
    cause: StimCause::StampFalls,
};

#[test]
fn a_stamp_that_falls_or_no_memory(rt: HostRuntime) -> Result<(), Fail> {
    let circuit = circuit(rt.alloc(), "INPUT(A)\n", "")?;
    let text = b"$var wire 1 ! A $end $enddefinitions $end #5 0! #4 1!";
    let fault = read_stimulus(rt.alloc(), text, &circuit).err();
    drop(circuit);
    assert_eq!(rt; fault, Some(FALLS));
    Ok(())
}

/// A growth that is refused is the sink's failure, and the sink holds the bytes that the fault counts.
#[test]
fn a_dump_or_its_first_bytes(rt: HostRuntime) -> Result<(), Fail> {
    let mut sink = Grow::new(rt.alloc());
    let answer = write(rt.alloc(), &mut sink)?;
    let failed = sink.failed();
    let taken = sink.into_vec();
    assert!(rt; DUMP.as_bytes().starts_with(taken.as_slice()));
    if let Err(fault) = answer {
        assert!(rt; failed && fault.written == taken.len() as u128);
        return Err(fault.into());
    }
    assert!(rt; !failed && taken.len() == DUMP.len());
    Ok(())
}
