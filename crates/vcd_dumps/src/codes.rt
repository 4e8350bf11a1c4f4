ghost use Rattle.std.specs.Prelude.{◌≡◌, ◌<◌, ◌≤◌, ◌+◌, ◌-◌, ◌/◌, ◌%◌, ℕ, [], ◌∷◌, take};
ghost use Rattle.vcd_dumps.specs.Codes.{code_of};

/// The code of a net in a dump, and how many bytes it has: 1 to 4 of the bytes 33 to 126.
#[tactic(auto, unfolding(crate::specs::Codes::code_of))]
pub fn code(n: u32) -> ([u8; 4], usize)
    requires { n < 1000000 }
    ensures bytes { take result.1 result.0 ≡ code_of n }
    ensures some { 1 ≤ result.1 }
    ensures few { result.1 ≤ 4 }
{
    if n < 94 {
        return ([digit(n), 0, 0, 0], 1);
    }
    let second = n / 94 - 1;
    if second < 94 {
        return ([digit(n), digit(second), 0, 0], 2);
    }
    let third = second / 94 - 1;
    if third < 94 {
        return ([digit(n), digit(second), digit(third), 0], 3);
    }
    let fourth = third / 94 - 1;
    ([digit(n), digit(second), digit(third), digit(fourth)], 4)
}

/// The byte of the last digit in base 94.
fn digit(n: u32) -> u8
    ensures { result ≡ 33 + n % 94 }
{
    33 + (n % 94) as u8
}

/// What is true of codes: a code of more than one byte is a byte and the code of a smaller number, and
/// different nets have different codes.
pub fn code_laws()
    ensures short { (n : ℕ) → n < 94 → code_of n ≡ (33 + n) ∷ [] }
    ensures long { (n : ℕ) → 94 ≤ n → n < 1000000 → code_of n ≡ (33 + n % 94) ∷ code_of (n / 94 - 1) }
    ensures differ { (m n : ℕ) → m < 1000000 → n < 1000000 → code_of m ≡ code_of n → m ≡ n }
{}
