//! What is told of dumps that aren't compared.
ghost use Rattle.std.specs.Prelude.{◌≡◌};
ghost use Rattle.warp_command.specs.Replies.{IsNotCompared};

use crate::failure::Failure;
use std::alloc::Global;
use vcd_compare::{CompareFault, Options};
use warp_explain::{Compared, explain_comparison};

/// What is told of dumps that aren't compared, with an explanation where it is asked for and there is memory for it.
pub(crate) fn not_compared<'a>(
    alloc: Global,
    explains: bool,
    options: &Options<'_>,
    texts: &Compared<'_>,
    fault: CompareFault,
) -> Failure<'a>
    ensures { IsNotCompared explains (λ told. told ≡ fault) result }
{
    if !explains {
        return Failure::NotCompared(fault);
    }
    match explain_comparison(alloc, options, texts, &fault) {
        Ok(text) => Failure::ComparisonExplained { fault, text },
        Err(_) => Failure::NotCompared(fault),
    }
}
