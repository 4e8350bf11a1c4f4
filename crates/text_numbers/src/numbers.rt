ghost use Rattle.std.specs.Prelude.{◌≡◌, ◌<◌, ◌^◌};
ghost use Rattle.std.specs.List.{list_all};
ghost use Rattle.text_numbers.specs.Numbers.{is_digit, is_numeral, number_up_to};

fn all_digits(text: &[u8]) -> bool
    ensures { result ≡ list_all is_digit text.now }
{
    text.iter().all(|byte| matches!(*byte, b'0'..=b'9'))
}

/// Whether the text is one or more decimal digits.
pub fn is_numeral(text: &[u8]) -> bool
    ensures { result ≡ is_numeral text.now }
{
    !text.is_empty() && all_digits(text)
}

/// The number that decimal digits make, where it is at most `most`, which is below 2^60.
pub fn number_up_to(most: u64, digits: &[u8]) -> Option<u64>
    requires { most < 2 ^ 60 }
    ensures { result ≡ number_up_to most digits.now }
{
    let mut number: u64 = 0;
    for byte in digits {
        number = number * 10 + byte.saturating_sub(b'0') as u64;
        if number > most {
            return None;
        }
    }
    Some(number)
}
