ghost use Rattle.std.specs.Prelude.{◌≡◌, is_some};
ghost use Rattle.std.specs.List.{list_all};
ghost use Rattle.gate_vcd.specs.Changes.{value_of, are_values, digit, extension, past_end, value_at_place};

use gate_values::Logic;

/// The value that a byte writes.
pub fn value_of(byte: u8) -> Option<Logic>
    ensures { result ≡ value_of byte }
{
    match byte {
        b'0' => Some(Logic::Zero),
        b'1' => Some(Logic::One),
        b'x' | b'X' => Some(Logic::X),
        b'z' | b'Z' => Some(Logic::Z),
        _ => None,
    }
}

fn all_values(digits: &[u8]) -> bool
    ensures { result ≡ list_all (λ b. is_some (value_of b)) digits.now }
{
    digits.iter().all(|byte| value_of(*byte).is_some())
}

/// Whether the text is one or more digits that write values.
pub fn are_values(digits: &[u8]) -> bool
    ensures { result ≡ are_values digits.now }
{
    !digits.is_empty() && all_values(digits)
}

/// The value that a digit writes.
fn digit(byte: u8) -> Logic
    ensures { result ≡ digit byte }
{
    value_of(byte).unwrap_or(Logic::X)
}

/// What short digits are extended by on the left, whose leftmost one has this value.
fn extension(leftmost: Logic) -> Logic
    ensures { result ≡ extension leftmost }
{
    match leftmost {
        Logic::Zero | Logic::One => Logic::Zero,
        Logic::X => Logic::X,
        Logic::Z => Logic::Z,
    }
}

/// The value of all places past the end of digits.
pub fn past_end(digits: &[u8]) -> Logic
    ensures { result ≡ past_end digits.now }
{
    match digits {
        [first, ..] => extension(digit(*first)),
        [] => Logic::X,
    }
}

/// The value at a place of digits, counted from the right and from 0.
pub fn value_at_place(place: u64, digits: &[u8]) -> Logic
    ensures { result ≡ value_at_place place digits.now }
{
    if place < digits.len() as u64 {
        digit(digits[digits.len() - 1 - place as usize])
    } else {
        past_end(digits)
    }
}
