//! What a call gives, in memory that the caller lends.

ghost use Rattle.std.specs.Prelude.{◌≡◌, ◌≢◌, ◌⊎◌, ◌<◌, ◌≤◌, length};
ghost use Rattle.pdbmerge_c.specs.Fault.{IsEnded, IsTold, no_number};
ghost use Rattle.pdbmerge_c.specs.Given.{Fills};

use crate::fault::{Fault, ROOM, clear, tell};

/// Copies items to the front of `out`, which has room for them.
pub(crate) fn fill<T: Copy>(items: &[T], out: &mut [T])
    requires { length items.now ≤ length out.old }
    ensures { Fills items.now out.old out.new }
{
    out[..items.len()].copy_from_slice(items);
}

/// Copies items to the front of `out`, and says in `count` how many there are. `ROOM` where there is
/// too little room: then `out` is as it was.
pub(crate) fn give<T: Copy>(items: &[T], out: &mut [T], count: &mut u64, fault: &mut Fault) -> u32
    ensures count { count.new ≡ length items.now }
    ensures status { (result ≡ 0) ⊎ ((result ≡ 100) × (length out.old < length items.now)) }
    ensures done { result ≡ 0 → Fills items.now out.old out.new }
    ensures kept { result ≢ 0 → out.new ≡ out.old }
    ensures told { IsTold fault.new result no_number }
    ensures ended { IsEnded fault.new }
{
    *count = items.len() as u64;
    if out.len() < items.len() {
        return tell(fault, ROOM, None, &"100 Room");
    }
    fill(items, out);
    clear(fault)
}
