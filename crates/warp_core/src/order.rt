//! Whether an order has each block once.

ghost use Rattle.std.specs.Prelude.{◌≡◌, ◌<◌, ◌≤◌, ◌↔◌, ℕ, IsTrue, false, length, get_or};
ghost use Rattle.warp_core.specs.Drive.{IsOrder};
ghost use Rattle.warp_core.specs.Inner.Order.{IsMet};

/// The most blocks that a cut has.
const MOST_BLOCKS: usize = 1024;

/// Whether an order is a permutation of so many blocks, at most [`MOST_BLOCKS`].
pub(crate) fn is_order(order: &[u32], count: u32) -> bool
    requires { count ≤ 1024 }
    ensures { IsTrue result ↔ IsOrder count order.now }
{
    let mut met = [false; MOST_BLOCKS];
    meet_each(order, count, &mut met) && are_met(&met, count)
}

/// Marks the numbers of an order, unless one isn't below the count, or stands there twice.
fn meet_each(order: &[u32], count: u32, met: &mut [bool]) -> bool
    requires room { count ≤ length met.old }
    requires none { (b : ℕ) → get_or met.old b false ≡ false }
    ensures met { IsTrue result → IsMet count order.now met.new }
    ensures refused { result ≡ false → IsOrder count order.now → ⊥ }
    ensures room { length met.new ≡ length met.old }
{
    for number in order {
        let place = *number as usize;
        if *number >= count || met[place] {
            return false;
        }
        met[place] = true;
    }
    true
}

/// Whether each number below a count is marked.
fn are_met(met: &[bool], count: u32) -> bool
    requires { count ≤ length met.now }
    ensures { IsTrue result ↔ ((b : ℕ) → b < count → IsTrue (get_or met.now b false)) }
{
    for number in 0..count {
        if !met[number as usize] {
            return false;
        }
    }
    true
}
