ghost use Rattle.std.specs.Prelude.{◌≡◌, IfOk, IfSome};
ghost use Rattle.warp_process.specs.Entries.{effective_of, one_message};
ghost use Rattle.warp_process.specs.Shown.Rows.{standing_of};

use crate::entry::Entry;
use gate_values::Logic;
use std::alloc::{AllocError, Global};
use std::default::MadeWith;
use std::marker::Model;
use std::mem::size_of;

/// An entry, and the place of its net.
#[derive(Debug, Drop)]
pub struct Placed {
    numbers: Numbers,
}

/// The same, in 16 bytes as long as each number is from -128 to 127.
#[derive(Debug, Drop)]
enum Numbers {
    Small {
        zero: i8,
        one: i8,
        x: i8,
        z: i8,
        place: u32,
    },
    Large(Box<Counted>),
}

const _: () = prove!(size_of::<Placed>() <= 16);

/// The same, as it is.
#[derive(Clone, Copy, Debug)]
struct Counted {
    entry: Entry,
    place: u32,
}

impl Model for Placed {
    ghost use Rattle.warp_process.specs.Rows.{Standing};

    ghost Value = { Standing };

    ghost use Rattle.warp_process.specs.Shown.Rows.{standing_of};

    ghost view = { λ placed. standing_of placed.numbers };
}

impl MadeWith<Global> for Placed {
    fn made_with(_alloc: Global) -> Placed {
        Placed {
            numbers: Numbers::Small {
                zero: 0,
                one: 0,
                x: 0,
                z: 0,
                place: 0,
            },
        }
    }
}

impl Placed {
    pub(crate) fn new(alloc: Global, place: u32, entry: Entry) -> Result<Placed, AllocError>
        ensures { IfOk result (λ placed. placed ≡ record { place = place; entry = entry }) }
    {
        if let Some(numbers) = small(place, entry) {
            return Ok(Placed { numbers });
        }
        let large = Box::new(alloc, Counted { entry, place })?;
        Ok(Placed {
            numbers: Numbers::Large(large),
        })
    }

    /// One message of a value at a place.
    pub(crate) fn one_message(place: u32, value: Logic) -> Placed
        ensures { result ≡ record { place = place; entry = one_message value } }
    {
        let [zero, one, x, z] = match value {
            Logic::Zero => [1, 0, 0, 0],
            Logic::One => [0, 1, 0, 0],
            Logic::X => [0, 0, 1, 0],
            Logic::Z => [0, 0, 0, 1],
        };
        Placed {
            numbers: Numbers::Small {
                zero,
                one,
                x,
                z,
                place,
            },
        }
    }

    /// The place of the net among those of its part.
    pub fn place(&self) -> u32
        ensures { result ≡ self.now.place }
    {
        match &self.numbers {
            Numbers::Small { place, .. } => *place,
            Numbers::Large(large) => large.place,
        }
    }

    pub(crate) fn entry(&self) -> Entry
        ensures { result ≡ self.now.entry }
    {
        match &self.numbers {
            Numbers::Small {
                zero,
                one,
                x,
                z,
                ..
            } => Entry {
                zero: i128::from(*zero),
                one: i128::from(*one),
                x: i128::from(*x),
                z: i128::from(*z),
            },
            Numbers::Large(large) => large.entry,
        }
    }

    /// The value that the net takes.
    pub fn effective(&self) -> Option<Logic>
        ensures { result ≡ effective_of self.now.entry }
    {
        match &self.numbers {
            Numbers::Small { zero, .. } if *zero > 0 => Some(Logic::Zero),
            Numbers::Small { one, .. } if *one > 0 => Some(Logic::One),
            Numbers::Small { x, .. } if *x > 0 => Some(Logic::X),
            Numbers::Small { z, .. } if *z > 0 => Some(Logic::Z),
            Numbers::Small { .. } => None,
            Numbers::Large(large) => large.entry.effective(),
        }
    }

    /// A copy.
    pub(crate) fn copy(&self, alloc: Global) -> Result<Placed, AllocError>
        ensures { IfOk result (λ copy. copy ≡ self.now) }
    {
        Placed::new(alloc, self.place(), self.entry())
    }
}

/// An entry of small numbers.
fn small(place: u32, entry: Entry) -> Option<Numbers>
    ensures { IfSome result (λ numbers. standing_of numbers ≡ record { place = place; entry = entry }) }
{
    Some(Numbers::Small {
        zero: i8::try_from(entry.zero).ok()?,
        one: i8::try_from(entry.one).ok()?,
        x: i8::try_from(entry.x).ok()?,
        z: i8::try_from(entry.z).ok()?,
        place,
    })
}
