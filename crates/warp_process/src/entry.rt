ghost use Rattle.std.specs.Prelude.{◌≡◌, ◌↔◌, IsTrue, ◌+ℤ◌, if◌then◌else◌};
ghost use Rattle.warp_process.specs.Entries.{effective_of, bump_of, number_of, with_number, no_messages, one_message, is_settled, is_within, weight_of};

use crate::message::Sign;
use gate_values::Logic;

/// For each value of a net at a time: how many messages a block has received, less the antimessages. A number
/// is from -10^30 to 10^30.
#[derive(Clone, Copy, Debug, PartialEq, Eq)]
pub struct Entry {
    pub zero: i128,
    pub one: i128,
    pub x: i128,
    pub z: i128,
}

/// How far a number counts, either way.
const MOST: i128 = 1_000_000_000_000_000_000_000_000_000_000;

impl Entry {
    /// Nothing stands, and nothing waits.
    pub const EMPTY: Entry = Entry {
        zero: 0,
        one: 0,
        x: 0,
        z: 0,
    };

    /// One message of a value stands.
    pub fn one_message(value: Logic) -> Entry
        ensures { result ≡ one_message value }
    {
        Entry::EMPTY.with(value, 1)
    }

    /// The value that the net takes: the first of `Zero`, `One`, `X`, `Z` of which a message stands.
    pub fn effective(&self) -> Option<Logic>
        ensures { result ≡ effective_of self.now }
    {
        if self.zero > 0 {
            Some(Logic::Zero)
        } else if self.one > 0 {
            Some(Logic::One)
        } else if self.x > 0 {
            Some(Logic::X)
        } else if self.z > 0 {
            Some(Logic::Z)
        } else {
            None
        }
    }

    /// The entry after one more message, or one more antimessage, of a value. None where its number would leave
    /// the limit.
    pub fn bump(&self, value: Logic, sign: Sign) -> Option<Entry>
        ensures { result ≡ bump_of self.now value sign }
    {
        match counted(self.number(value), sign) {
            Some(number) => Some(self.with(value, number)),
            None => None,
        }
    }

    /// Whether nothing stands and nothing waits, or one message of one value stands.
    pub fn is_settled(&self) -> bool
        ensures { IsTrue result ↔ IsTrue (is_settled self.now) }
    {
        match self.effective() {
            Some(value) => *self == Entry::one_message(value),
            None => self.is_empty(),
        }
    }

    /// Whether all numbers are 0.
    pub fn is_empty(&self) -> bool
        ensures { IsTrue result ↔ (self.now ≡ no_messages) }
    {
        self.zero == 0 && self.one == 0 && self.x == 0 && self.z == 0
    }

    fn number(&self, value: Logic) -> i128
        ensures { result ≡ number_of self.now value }
    {
        match value {
            Logic::Zero => self.zero,
            Logic::One => self.one,
            Logic::X => self.x,
            Logic::Z => self.z,
        }
    }

    fn with(&self, value: Logic, number: i128) -> Entry
        ensures { result ≡ with_number self.now value number }
    {
        let mut entry = *self;
        match value {
            Logic::Zero => entry.zero = number,
            Logic::One => entry.one = number,
            Logic::X => entry.x = number,
            Logic::Z => entry.z = number,
        }
        entry
    }
}

/// A number after one more message, or one more antimessage.
fn counted(number: i128, sign: Sign) -> Option<i128>
    ensures { result ≡ (if is_within (number +ℤ weight_of sign) then Some (number +ℤ weight_of sign) else None) }
{
    match sign {
        Sign::Plus if number < -MOST - 1 || MOST - 1 < number => None,
        Sign::Plus => Some(number + 1),
        Sign::Minus if number < 1 - MOST || MOST + 1 < number => None,
        Sign::Minus => Some(number - 1),
    }
}
