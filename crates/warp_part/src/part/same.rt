ghost use Rattle.std.specs.Prelude.{◌≡◌, ◌+◌, ◌↔◌, IsTrue, length};
ghost use Rattle.warp_part.specs.Inner.SamePart.{IsGate, SameCell, Spans};

use crate::cell::Cell;
use gate_values::{Kind, Logic};

/// Whether two lists of numbers are equal.
pub(super) fn same_numbers(first: &[u32], second: &[u32]) -> bool
    ensures { IsTrue result ↔ (first.now ≡ second.now) }
{
    first == second
}

fn same_kind(first: Kind, second: Kind) -> bool
    ensures { IsTrue result ↔ (first ≡ second) }
{
    first == second
}

fn same_logic(first: Logic, second: Logic) -> bool
    ensures { IsTrue result ↔ (first ≡ second) }
{
    first == second
}

/// Whether two cells, over the pins of their parts, say the same.
pub(super) fn same_cell(first: Cell, pins: &[u32], second: Cell, others: &[u32]) -> bool
    requires first { Spans (length pins.now) first }
    requires second { Spans (length others.now) second }
    ensures { IsTrue result ↔ SameCell pins.now first others.now second }
{
    match first {
        Cell::Input => matches!(second, Cell::Input),
        Cell::Foreign => matches!(second, Cell::Foreign),
        Cell::Pair {
            kind,
            delay,
            pins: two,
        } => is_gate(second, others, kind, delay, &two),
        Cell::Gate {
            kind,
            delay,
            pins: span,
        } => is_gate(second, others, kind, delay, span.of(pins)),
        Cell::Flop {
            init,
            delay,
            d,
            clock,
        } => match second {
            Cell::Flop {
                init: other_init,
                delay: other_delay,
                d: other_d,
                clock: other_clock,
            } => {
                delay == other_delay
                    && d == other_d
                    && clock == other_clock
                    && same_logic(init, other_init)
            }
            _ => false,
        },
    }
}

/// Whether a cell, over the pins of its part, is a gate of a kind, with a delay and pins.
fn is_gate(cell: Cell, list: &[u32], kind: Kind, delay: u32, pins: &[u32]) -> bool
    requires { Spans (length list.now) cell }
    ensures { IsTrue result ↔ IsGate kind delay pins.now list.now cell }
{
    match cell {
        Cell::Pair {
            kind: other_kind,
            delay: other_delay,
            pins: two,
        } => same_kind(kind, other_kind) && delay == other_delay && same_numbers(pins, &two),
        Cell::Gate {
            kind: other_kind,
            delay: other_delay,
            pins: span,
        } => {
            same_kind(kind, other_kind) && delay == other_delay && same_numbers(pins, span.of(list))
        }
        _ => false,
    }
}
