//! How many threads are worth while.
ghost use Rattle.std.specs.Prelude.{◌≡◌, ◌≤◌};
ghost use Rattle.warp_core.specs.Threads.{worthwhile};

/// A thread is worth while for so many nets: to go over fewer takes less than a millisecond or so.
pub const NETS_FOR_A_THREAD: u32 = 4096;

/// How many of some threads, at least one, are worth while where so many nets are gone over once: one for each
/// [`NETS_FOR_A_THREAD`] of them, and one at least.
pub fn worthwhile(threads: u32, nets: u32) -> u32
    requires { 1 ≤ threads }
    ensures count { result ≡ worthwhile threads nets }
    ensures some { 1 ≤ result }
{
    threads.min((nets / NETS_FOR_A_THREAD).max(1))
}
