ghost use Rattle.std.specs.Prelude.{◌≡◌, ◌≤◌, length, IfOk};
ghost use Rattle.gate_netlist.specs.HeldNets.{numbers_held, AreHeld};

use std::alloc::{AllocError, Global};
use std::marker::Model;

/// As many numbers as lie in the value itself. Nearly all gates have no more, and take no memory of their own.
const FEW: usize = 5;

#[derive(Debug, Drop)]
enum Held {
    Few { count: u8, numbers: [u32; 5] },
    Many(Vec<u32>),
}

/// Numbers of nets, in order. Contracts see the list.
#[derive(Debug, Drop)]
pub struct Nets {
    held: Held,
}

impl Model for Nets {
    ghost use Rattle.std.specs.Prelude.{ℕ, List};

    ghost Value = { List ℕ };

    ghost use Rattle.gate_netlist.specs.HeldNets.{numbers_held, AreHeld};

    ghost view = { λ nets. numbers_held nets.held };

    ghost invariant = { λ nets. AreHeld nets.held };
}

impl Nets {
    /// These numbers.
    pub fn new(numbers: Vec<u32>) -> Nets
        ensures { result ≡ numbers.items }
    {
        Nets {
            held: Held::Many(numbers),
        }
    }

    /// These numbers.
    pub(crate) fn of(alloc: Global, numbers: &[u32]) -> Result<Nets, AllocError>
        ensures { IfOk result (λ nets. nets ≡ numbers.now) }
    {
        if numbers.len() <= FEW {
            return Ok(Nets { held: few(numbers) });
        }
        Ok(Nets::new(Vec::from_slice(alloc, numbers)?))
    }

    /// The numbers as a slice.
    pub fn as_slice(&self) -> &[u32]
        ensures { result.now ≡ self.now }
    {
        match &self.held {
            Held::Few { count, numbers } => &numbers[..*count as usize],
            Held::Many(numbers) => numbers.as_slice(),
        }
    }
}

fn few(numbers: &[u32]) -> Held
    requires { length numbers.now ≤ 5 }
    ensures numbers { numbers_held result ≡ numbers.now }
    ensures held { AreHeld result }
{
    let mut held = [0; FEW];
    held[..numbers.len()].copy_from_slice(numbers);
    Held::Few {
        count: numbers.len() as u8,
        numbers: held,
    }
}
