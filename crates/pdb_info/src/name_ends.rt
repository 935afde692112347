//! Where the names of the string buffer end.
//!
//! A name ends at the next NUL, and names may share bytes. So the next NUL is found once for each
//! 64th byte of the buffer. The end of a name is then at most 64 bytes away, or it is known.

ghost use Rattle.std.specs.Prelude.{◌≡◌, ◌+◌, ◌-◌, ◌^◌, ◌<◌, ◌≤◌, ℕ, nat_lt, length, take, drop, IfOk};
ghost use Rattle.byte_fields.specs.Name.{name_len};
ghost use Rattle.pdb_info.specs.Names.{is_named};
ghost use Rattle.pdb_info.specs.Ends.{AreEnds};

use bstr::ByteSlice;
use std::alloc::{AllocError, Allocator};

/// How many bytes of the buffer a part has. The end of the name that begins at each part is kept.
const PART: usize = 64;

/// How many bytes a buffer has up to its last NUL, which is counted too. A name that begins after
/// them has no end.
pub(crate) fn ended_length(buffer: &[u8]) -> usize
    ensures { (offset : ℕ) → is_named buffer.now offset ≡ nat_lt offset result }
{
    match buffer.rfind_byte(0) {
        Some(last) => last + 1,
        None => 0,
    }
}

/// The bytes from one offset up to another.
pub(crate) fn between(buffer: &[u8], start: usize, stop: usize) -> &[u8]
    requires order { start ≤ stop }
    requires inside { stop ≤ length buffer.now }
    ensures { result.now ≡ take (stop - start) (drop start buffer.now) }
{
    &buffer[start..stop]
}

/// Where the name that begins at `start` ends, if the one that begins at `stop` ends at `end`. A
/// name without an end takes all bytes.
fn end_from(buffer: &[u8], start: usize, stop: usize, end: usize) -> usize
    requires order { start ≤ stop }
    requires inside { stop ≤ length buffer.now }
    requires known { end ≡ stop + name_len (drop stop buffer.now) }
    ensures { result ≡ start + name_len (drop start buffer.now) }
{
    match between(buffer, start, stop).find_byte(0) {
        Some(len) => start + len,
        None => end,
    }
}

/// The ends of the names that begin at the fronts of the parts of a buffer. This allocates 4 bytes
/// for each part.
pub(crate) fn ends_of<A: Allocator>(alloc: A, buffer: &[u8]) -> Result<Vec<u32, A>, AllocError>
    requires few { length buffer.now < 2 ^ 32 }
    ensures { IfOk result (λ ends. AreEnds buffer.now ends.items) }
{
    let mut parts = buffer.len() / PART + 1;
    let mut ends = vec![in alloc; 0u32; parts]?;
    let mut stop = buffer.len();
    let mut end = stop;
    while 0 < parts {
        parts -= 1;
        end = end_from(buffer, PART * parts, stop, end);
        stop = PART * parts;
        ends[parts] = end as u32;
    }
    Ok(ends)
}

/// Where the name that begins at an offset ends. `ends` has the ends at the parts.
pub(crate) fn end_at(buffer: &[u8], ends: &[u32], start: usize) -> usize
    requires inside { start ≤ length buffer.now }
    requires ends { AreEnds buffer.now ends.now }
    ensures { result ≡ start + name_len (drop start buffer.now) }
{
    let part = start / PART + 1;
    if PART * part <= buffer.len() {
        end_from(buffer, start, PART * part, ends[part] as usize)
    } else {
        end_from(buffer, start, buffer.len(), buffer.len())
    }
}
