//! The parts of the named stream map before its pairs: their offsets and their checks.

ghost use Rattle.std.specs.Prelude.{◌≡◌, ◌+◌, ◌*◌, ◌^◌, ◌<◌, ◌≤◌, length, IfOk, IfErr};
ghost use Rattle.byte_fields.specs.Number.{number_at};
ghost use Rattle.byte_fields.specs.Check.{Makes};
ghost use Rattle.pdb_info.specs.Names.{IsMap, numbers_at, present_count, map_checks};

use crate::fault::InfoFault;
use crate::header::HEADER_LENGTH;
use byte_fields::{fits, u32_at};

/// How many bytes Size, Capacity and the number of present words take together.
pub(crate) const COUNTS: usize = 12;

/// The offsets of the parts of a named stream map, in bytes, and the counts in it.
#[derive(Clone, Copy)]
pub(crate) struct NameMap {
    /// The offset of Size, which follows the buffer.
    pub(crate) size_offset: usize,
    /// The offset of the first pair.
    pub(crate) pairs_offset: usize,
    /// How many pairs there are.
    pub(crate) size: u32,
    /// How many present words there are: words of four bytes that say which buckets are present.
    pub(crate) present_words: u32,
}

/// Checks that a field of `count` bytes fits at `offset`.
pub(crate) fn check_fits(stream: &[u8], offset: usize, count: usize) -> Result<(), InfoFault>
    requires small { offset + count < 2 ^ 64 }
    ensures value { IfOk result (λ _. offset + count ≤ length stream.now) }
    ensures short { IfErr result (λ _. length stream.now < offset + count) }
    ensures fault { IfErr result (λ fault. fault ≡ InfoFault.NamesShort offset) }
{
    if !fits(stream, offset, count) {
        return Err(InfoFault::NamesShort(offset as u64));
    }
    Ok(())
}

/// Checks that a four-byte number fits at `offset`, and returns the number.
fn number(stream: &[u8], offset: usize) -> Result<u32, InfoFault>
    requires small { offset + 4 < 2 ^ 64 }
    ensures value { IfOk result (λ n. n ≡ number_at 4 stream.now offset) }
    ensures inside { IfOk result (λ _. offset + 4 ≤ length stream.now) }
    ensures short { IfErr result (λ _. length stream.now < offset + 4) }
    ensures fault { IfErr result (λ fault. fault ≡ InfoFault.NamesShort offset) }
{
    check_fits(stream, offset, 4)?;
    Ok(u32_at(stream, offset))
}

/// How many bits are 1 in the `words` numbers of four bytes at `start`.
#[tactic(auto, using(crate::proofs::MapLaws::present_more, crate::proofs::MapLaws::ones_few))]
fn present_count(stream: &[u8], start: usize, words: u32) -> u64
    requires { start + 4 * words ≤ length stream.now }
    ensures { result ≡ present_count (numbers_at stream.now start words) }
{
    let mut present = 0u64;
    for w in 0..words {
        let word = u32_at(stream, start + 4 * w as usize);
        present += u64::from(word.count_ones());
    }
    present
}

impl NameMap {
    /// Finds the parts of the map, which follows the header, and checks the parts before the pairs.
    #[tactic(auto, unfolding(crate::specs::Names::map_checks, crate::specs::Names::size_offset, crate::specs::Names::deleted_offset, crate::specs::Names::pairs_offset, crate::specs::Names::present_of))]
    pub(crate) fn find(stream: &[u8]) -> Result<NameMap, InfoFault>
        ensures value { IfOk result (IsMap stream.now) }
        ensures first { Makes result (map_checks stream.now) }
    {
        let buffer_len = number(stream, HEADER_LENGTH)? as usize;
        check_fits(stream, HEADER_LENGTH + 4, buffer_len)?;
        let size_offset = HEADER_LENGTH + 4 + buffer_len;
        let size = number(stream, size_offset)?;
        // Capacity must fit in the stream, but its value is not used.
        number(stream, size_offset + 4)?;
        let present_words = number(stream, size_offset + 8)?;
        let present_offset = size_offset + COUNTS;
        check_fits(stream, present_offset, 4 * present_words as usize)?;
        let deleted_offset = present_offset + 4 * present_words as usize;
        let deleted_words = number(stream, deleted_offset)?;
        check_fits(stream, deleted_offset + 4, 4 * deleted_words as usize)?;
        let present = present_count(stream, present_offset, present_words);
        if u64::from(size) != present {
            return Err(InfoFault::NamesCount {
                said: size,
                present,
            });
        }
        Ok(NameMap {
            size_offset,
            pairs_offset: deleted_offset + 4 + 4 * deleted_words as usize,
            size,
            present_words,
        })
    }
}
