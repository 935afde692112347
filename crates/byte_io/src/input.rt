//! The whole of a source.

ghost use Rattle.std.specs.Prelude.{◌≡◌, ◌⊎◌, ◌<◌, ◌≤◌, ◌-◌, ℕ, List, length, take, OnOk, IfOk, IfErr};
ghost use Rattle.std.specs.Io.KnownBytes.{Consumes, IsAtEnd};
ghost use Rattle.byte_io.specs.Input.{GivesAll, GivesMore, IsNotRead, HasGiven};
ghost use Rattle.byte_io.specs.declared.input.ReadFault.TheVariants.{Memory};
ghost use Rattle.byte_io.specs.Fault.{read_number};

use crate::source::Source;
use std::alloc::{AllocError, Allocator};
use thiserror::Error;

/// How many bytes a call of `fetch` asks for at most.
const PIECE: usize = 65536;

/// How many bytes a full buffer grows by at least.
const GROWTH: usize = 512;

/// How many bytes a call of `fetch` asks for where they are dropped. They are on the stack.
const DROPPED: usize = 4096;

/// Why an input was not read to its end.
#[derive(Clone, Copy, Debug, PartialEq, Eq, Error)]
pub enum ReadFault {
    /// The source is broken.
    #[error("37 Read")]
    Read,
    /// More bytes came than the limit allows.
    #[error("38 TooLong")]
    TooLong,
    /// Out of memory.
    #[error("33 Memory")]
    Memory,
}

impl ReadFault {
    /// The number of the fault, which stands in its text.
    pub fn number(&self) -> u32
        ensures { result ≡ read_number self.now }
    {
        match self {
            ReadFault::Read => 37,
            ReadFault::TooLong => 38,
            ReadFault::Memory => 33,
        }
    }
}

impl From<AllocError> for ReadFault {
    ghost from_gives = { λ _ fault. fault ≡ Memory };

    fn from(_error: AllocError) -> ReadFault {
        ReadFault::Memory
    }
}

/// Fetches the next bytes of a source into a nonempty slice, and returns how many. 0 means that
/// there are no more. `TooLong` where more than `room` bytes came.
fn fetch_piece<R: Source>(input: &mut R, piece: &mut [u8], room: usize) -> Result<usize, ReadFault>
    requires some { 0 < length piece.old }
    ensures value { IfOk result (λ n.
        (n ≤ length piece.new) × (n ≤ room)
        × Consumes (R.left input.old) (R.left input.new) (take n piece.new)
        × (n ≡ 0 → IsAtEnd (R.left input.new))) }
    ensures same { length piece.new ≡ length piece.old }
    ensures first { IfErr result
        (IsNotRead (R.left input.old) (R.left input.new) (R.is_broken input.new) room) }
{
    match input.fetch(piece) {
        None => Err(ReadFault::Read),
        Some(count) if room < count => Err(ReadFault::TooLong),
        Some(count) => Ok(count),
    }
}

/// Makes room for more bytes in a buffer that is full. Returns how many bytes to fetch into its
/// room.
fn make_room<A: Allocator>(file: &mut Vec<u8, A>) -> Result<usize, AllocError>
    ensures same { file.new.items ≡ file.old.items }
    ensures some { IfOk result (λ room. (0 < room) × (room ≤ PIECE)) }
{
    if file.capacity() <= file.len() {
        file.reserve(GROWTH)?;
    }
    Ok((file.capacity() - file.len()).min(PIECE))
}

/// Fetches the next bytes of a source to the end of a buffer, straight into the room that it has,
/// and returns how many. 0 means that there are no more. `TooLong` where the buffer would have
/// more than `limit` bytes then, and `Memory` where it is full and can't grow.
fn fetch_more<R: Source, A: Allocator>(
    input: &mut R,
    limit: usize,
    file: &mut Vec<u8, A>,
) -> Result<usize, ReadFault>
    requires short { length file.old.items ≤ limit }
    ensures value { IfOk result
        (GivesMore (R.left input.old) (R.left input.new) limit file.old.items file.new.items) }
    ensures first { IfErr result (λ fault.
        IsNotRead (R.left input.old) (R.left input.new) (R.is_broken input.new)
        (limit - length file.old.items) fault
        ⊎ ((fault ≡ ReadFault.Memory) × (R.left input.new ≡ R.left input.old))) }
{
    let length = file.len();
    let room = make_room(file)?;
    file.resize(length + room, 0)?;
    let count = fetch_piece(input, &mut file[length..], limit - length)?;
    file.truncate(length + count);
    Ok(count)
}

/// Reads a source to its end into a buffer, whose old bytes are dropped.
///
/// The faults: `Read` where the source breaks, `TooLong` where it gives more than `limit` bytes,
/// and `Memory` when out of memory. After a fault some of the source's bytes may be gone. `Memory`
/// comes only where at most `limit` bytes came before it.
///
/// This fetches at most `limit + 1` times, so a source that never ends is refused too. The buffer
/// grows geometrically, whatever the source says of its length, and keeps the space that it has.
/// The bytes are fetched straight into its space, and none are on the stack.
pub fn read_into<R: Source, A: Allocator>(
    input: &mut R,
    limit: u32,
    file: &mut Vec<u8, A>,
) -> Result<(), ReadFault>
    ensures value { OnOk result
        (GivesAll (R.left input.old) (R.left input.new) limit file.new.items) }
    ensures first { IfErr result (λ fault.
        IsNotRead (R.left input.old) (R.left input.new) (R.is_broken input.new) limit fault
        ⊎ (fault ≡ ReadFault.Memory)) }
    ensures memory { IfErr result (λ fault.
        fault ≡ ReadFault.Memory → HasGiven (R.left input.old) (R.left input.new) limit) }
{
    file.clear();
    for turn in 0..u64::from(limit) + 1 {
        if fetch_more(input, limit as usize, file)? == 0 {
            return Ok(());
        }
    }
    // Each turn gave at least one byte, so more bytes came than the limit allows.
    Err(ReadFault::TooLong)
}

/// Reads a source to its end, and returns all its bytes. The faults are those of [`read_into`].
pub fn read_all<R: Source, A: Allocator>(
    alloc: A,
    input: &mut R,
    limit: u32,
) -> Result<Vec<u8, A>, ReadFault>
    ensures value { IfOk result (λ file.
        GivesAll (R.left input.old) (R.left input.new) limit file.items) }
    ensures first { IfErr result (λ fault.
        IsNotRead (R.left input.old) (R.left input.new) (R.is_broken input.new) limit fault
        ⊎ (fault ≡ ReadFault.Memory)) }
    ensures memory { IfErr result (λ fault.
        fault ≡ ReadFault.Memory → HasGiven (R.left input.old) (R.left input.new) limit) }
{
    let mut file = Vec::new(alloc);
    read_into(input, limit, &mut file)?;
    Ok(file)
}

/// Reads a source to its end, and drops its bytes. The faults are those of [`read_into`], except
/// `Memory`, since this does not allocate.
pub fn skip_all<R: Source>(input: &mut R, limit: u32) -> Result<(), ReadFault>
    ensures value { OnOk result
        ((bytes : List ℕ) × GivesAll (R.left input.old) (R.left input.new) limit bytes) }
    ensures first { IfErr result
        (IsNotRead (R.left input.old) (R.left input.new) (R.is_broken input.new) limit) }
{
    let mut piece = [0u8; DROPPED];
    let mut room = limit as usize;
    for turn in 0..u64::from(limit) + 1 {
        let count = fetch_piece(input, &mut piece, room)?;
        if count == 0 {
            return Ok(());
        }
        room -= count;
    }
    // Each turn gave at least one byte, so more bytes came than the limit allows.
    Err(ReadFault::TooLong)
}
