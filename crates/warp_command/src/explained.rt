//! Which text a fault is about, and what is told of it.
ghost use Rattle.std.specs.Prelude.{◌≡◌};
ghost use Rattle.warp_command.specs.Replies.{IsRefusal};

use crate::failure::Failure;
use std::alloc::{AllocError, Global};
use text_places::{Place, Source};
use warp_explain::{
    explain_bench, explain_event, explain_only, explain_schedule, explain_settings,
    explain_stimulus, explain_unfinished,
};
use warp_text::Fault;

/// The texts that a request is about. One that it doesn't name is empty.
#[derive(Clone, Copy)]
pub(crate) struct Given<'a> {
    pub bench: Source<'a>,
    pub settings: Source<'a>,
    pub stimulus: Source<'a>,
    pub schedule: Source<'a>,
    pub only: Source<'a>,
}

/// A text that is all of its file.
pub(crate) fn whole<'a>(name: &'a str, text: &'a [u8]) -> Source<'a>
    ensures text { result.text.now ≡ text.entry.now }
{
    Source {
        name,
        text,
        lines_before: 0,
    }
}

/// A text at the end of its file.
pub(crate) fn at_end<'a>(name: &'a str, text: &'a [u8], file: &[u8]) -> Source<'a>
    ensures text { result.text.now ≡ text.entry.now }
{
    let lines = Place::of(file, file.len()).line;
    let own = Place::of(text, text.len()).line;
    Source {
        name,
        text,
        lines_before: lines.saturating_sub(own),
    }
}

/// A text that isn't there.
pub(crate) fn nothing<'a>() -> Source<'a> {
    whole("", &[])
}

/// What is told of a fault behind its line; nothing where no text is to blame.
fn explained(alloc: Global, fault: &Fault, given: &Given<'_>) -> Result<String, AllocError> {
    match fault {
        Fault::Bench(fault) => explain_bench(alloc, given.bench, fault),
        Fault::Settings(fault) => explain_settings(alloc, given.bench, given.settings, *fault),
        Fault::Stimulus(fault) => {
            explain_stimulus(alloc, given.bench, given.settings, given.stimulus, fault)
        }
        Fault::Schedule(fault) => explain_schedule(alloc, given.schedule, fault),
        Fault::Event { number, cause } => explain_event(alloc, given.schedule, *number, *cause),
        Fault::Unfinished { time } => explain_unfinished(alloc, given.schedule, *time),
        Fault::Only(fault) => {
            explain_only(alloc, given.bench, given.settings, given.only, fault)
        }
        Fault::Run(_) | Fault::Memory => Ok(String::new(alloc)),
    }
}

/// What is told of a fault of texts, with an explanation where it is asked for and there is memory for it.
pub(crate) fn refused<'a>(
    alloc: Global,
    explains: bool,
    given: &Given<'_>,
    fault: Fault,
) -> Failure<'a>
    ensures { IsRefusal explains (λ told. told ≡ fault) result }
{
    if !explains {
        return Failure::Fault(fault);
    }
    match explained(alloc, &fault, given) {
        Ok(text) => Failure::Explained { fault, text },
        Err(_) => Failure::Fault(fault),
    }
}
