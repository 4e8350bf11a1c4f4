ghost use Rattle.std.specs.Prelude.{◌≡◌};
ghost use Rattle.std.specs.Hash.FoldHasher as folding;
ghost use Rattle.gate_netlist.specs.Seeds.{seed_of};
ghost use Rattle.gate_netlist.specs.Inner.Hashing.{stepped, held, is_end, joined};

use std::hash::{BuildHasher, DefaultHasher, FoldHasher, Hasher};

/// The most bytes that go into one step: more would be multiplied with each other, and whoever picks them could make such a
/// product 0 under each seed.
const STEP: usize = 8;

/// What a name's hash input ends with. It stands in no name.
const END: u8 = 0xff;

/// How far the last byte is moved up in a hash.
const TOP: u32 = 56;

/// A hasher that takes eight bytes a step, from a state that a text's seed has set.
///
/// The last byte goes into no step: it is added to the highest bits of the hash, by which a table tells names of one place apart.
/// So names that differ in their last byte alone, as numbered ones do, lie side by side, and one look at memory brings them all.
#[derive(Clone, Copy)]
pub struct TextHasher {
    words: FoldHasher,
    last: Option<u8>,
    is_ended: bool,
}

/// Reads bytes in steps.
fn step(words: &mut FoldHasher, bytes: &[u8])
    ensures { words.new ≡ stepped folding.write words.old bytes.now }
{
    let mut rest = bytes;
    while !rest.is_empty() {
        let (word, after) = rest.split_at(STEP.min(rest.len()));
        words.write(word);
        rest = after;
    }
}

/// Reads a last byte that was held back, if there is one, and what ends a name, if that came behind it.
fn hold(words: &mut FoldHasher, last: Option<u8>, is_ended: bool)
    ensures { words.new ≡ held folding.write words.old last is_ended }
{
    if let Some(last) = last {
        words.write(&[last]);
    }
    if is_ended {
        words.write(&[END]);
    }
}

impl TextHasher {
    /// Whether these bytes are what a name's hash input ends with, behind a byte that is held back.
    fn is_end(&self, most: &[u8], last: u8) -> bool
        ensures { result ≡ is_end self.now most.now last }
    {
        most.is_empty() && last == END && !self.is_ended
    }

    /// Reads bytes and a last one, which is held back. What ends a name is noted.
    fn join(&mut self, most: &[u8], last: u8)
        ensures { self.new ≡ joined self.old most.now last }
    {
        if self.is_end(most, last) {
            self.is_ended = true;
            return;
        }
        hold(&mut self.words, self.last, self.is_ended);
        step(&mut self.words, most);
        self.last = Some(last);
        self.is_ended = false;
    }
}

impl Hasher for TextHasher {
    ghost use Rattle.gate_netlist.specs.Inner.Hashing.{written, finished};

    ghost write = { written };

    ghost finish = { finished };

    fn finish(&self) -> u64 {
        let last = self.last.unwrap_or(0);
        self.words.finish().wrapping_add((last as u64) << TOP)
    }

    #[tactic(auto, unfolding(crate::specs::Inner::Hashing::joined_all))]
    fn write(&mut self, bytes: &[u8]) {
        let (most, last) = bytes.split_at(bytes.len().saturating_sub(1));
        if let [last, ..] = last {
            self.join(most, *last);
        }
    }
}

/// Hashes what stands in a text by a seed taken from the whole text.
///
/// Whoever writes a text picks its names. Under a fixed seed names can be picked that all have one hash, and each
/// look-up then goes through them all. Here a text with one byte changed has another seed, so that names picked for
/// a seed would have to stand in a text which has that very seed.
#[derive(Clone, Copy)]
pub struct TextSeed {
    seeded: TextHasher,
}

impl TextSeed {
    /// The seed of a text: the hash of all its bytes.
    pub fn of(text: &[u8]) -> TextSeed
        ensures { result ≡ seed_of text.now }
    {
        let mut whole = DefaultHasher::new();
        whole.write(text);
        let mut words = FoldHasher::default();
        words.write_u64(whole.finish());
        TextSeed {
            seeded: TextHasher {
                words,
                last: None,
                is_ended: false,
            },
        }
    }
}

impl BuildHasher for TextSeed {
    type Hasher = TextHasher;

    ghost build_hasher = { λ seed. seed.seeded };

    fn build_hasher(&self) -> TextHasher {
        self.seeded
    }
}
