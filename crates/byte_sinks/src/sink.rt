ghost use Rattle.std.specs.Prelude.{◌≡◌, ◌≤◌, false, [], length, IfSome, Some};
ghost use Rattle.byte_sinks.specs.Sink.{Held, after_put};

use std::alloc::Global;
use std::marker::Model;

/// A place where the bytes of a text go, and which may fail.
pub trait Sink {
    /// The bytes that it has taken, and whether a `put` has failed.
    ghost held: { Self → Held };

    /// Takes the first so many of the bytes, none at `None`. `None`, or 0 of bytes that aren't none, is a
    /// failure.
    fn put(&mut self, bytes: &[u8]) -> Option<usize>
        ensures within { IfSome result (λ n. n ≤ length bytes.now) }
        ensures held { held self.new ≡ after_put (held self.old) bytes.now result };

    /// Whether a `put` has failed.
    fn failed(&self) -> bool
        ensures { result ≡ (held self.now).failed };
}

/// A sink over a vector. It fails only where a growth of the vector is refused, and then it has failed
/// for good.
#[derive(Drop)]
pub struct Grow {
    bytes: Vec<u8>,
    failed: bool,
}

impl Model for Grow {
    ghost use Rattle.byte_sinks.specs.Sink.{Held};

    ghost Value = { Held };

    ghost use Rattle.byte_sinks.specs.Shown.Grown.{held_by};

    ghost view = { held_by };
}

impl Grow {
    /// A sink that has taken nothing.
    pub fn new(alloc: Global) -> Grow
        ensures { result ≡ record { bytes = []; failed = false } }
    {
        Grow {
            bytes: Vec::new(alloc),
            failed: false,
        }
    }

    /// The bytes that it has taken.
    pub fn into_vec(self) -> Vec<u8>
        ensures { result.items ≡ self.bytes }
    {
        let Grow { bytes, failed: _ } = self;
        bytes
    }
}

impl Sink for Grow {
    ghost held = { λ grow. grow };

    fn put(&mut self, bytes: &[u8]) -> Option<usize>
        ensures within { IfSome result (λ n. n ≤ length bytes.now) }
        ensures held { self.new ≡ after_put self.old bytes.now result }
        // A `put` that doesn't fail takes all of the bytes.
        ensures whole { IfSome result (λ n. n ≡ length bytes.now) }
        // One of no bytes doesn't fail.
        ensures none { length bytes.now ≡ 0 → result ≡ Some 0 }
    {
        if bytes.is_empty() {
            return Some(0);
        }
        match self.bytes.extend_from_slice(bytes) {
            Ok(()) => Some(bytes.len()),
            Err(_) => {
                self.failed = true;
                None
            }
        }
    }

    fn failed(&self) -> bool {
        self.failed
    }
}
