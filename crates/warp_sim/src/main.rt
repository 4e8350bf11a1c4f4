//! The program: gate-level simulation from a command line to a value change dump.
//!
//! It hands the words of its command line, the files and the three standard streams to [`program`], which
//! says the status with which the process ends. All that is answered stands in `warp_command`.
#![tactic(auto)]

use std::alloc::Global;
use std::env;
use std::io::ErrorKind;
use std::process::ExitCode;
use warp_command::{Failure, Outside, Stream, program, show};
use warp_text::Fault;

/// The words of the command line, the program's own name first.
fn words_of(rt: &HostRuntime) -> Result<Vec<String>, Failure<'static>> {
    let alloc: Global = rt.alloc();
    match env::args(rt) {
        Ok(words) => Ok(words.collect(alloc)?),
        Err(error) => {
            if error.kind() == ErrorKind::OutOfMemory {
                return Err(Failure::Fault(Fault::Memory));
            }
            Err(Failure::NotText)
        }
    }
}

fn main(rt: HostRuntime) -> ExitCode {
    let mut out = Stream::new(rt.stdout());
    let mut err = Stream::new(rt.stderr());
    let words = match words_of(&rt) {
        Ok(words) => words,
        Err(failure) => return ExitCode::from(show(&Err(failure), &mut out, &mut err)),
    };
    let mut texts = Outside::new(&rt);
    let status = program(
        &rt,
        rt.alloc(),
        words.as_slice(),
        &mut texts,
        &mut out,
        &mut err,
    );
    ExitCode::from(status)
}
