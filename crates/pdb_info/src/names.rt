//! Streams with their names, and the feature codes after them.

ghost use Rattle.std.specs.Prelude.{◌≡◌, ◌+◌, ◌-◌, ◌*◌, ◌^◌, ◌≤◌, true, length, map, min, sum_by, IfOk, None};
ghost use Rattle.byte_fields.specs.Number.{number_at};
ghost use Rattle.byte_fields.specs.Check.{first_failing, checks_below};
ghost use Rattle.pdb_info.specs.Names.{IsMap, is_named, named_in, pair_at, pair_checks, pair_offset, pairs_offset, names_below, size_of, buffer_of, features_of, features_offset};
ghost use Rattle.pdb_info.specs.Ends.{AreEnds};
ghost use Rattle.pdb_info.specs.Name.{named};

use crate::map::NameMap;
use crate::name_ends::{between, end_at, ends_of};
use byte_fields::u32_at;
use std::alloc::{AllocError, Allocator};

/// A stream with its name, which is lent from the info stream. ("The PDB Info Stream", "Named
/// Stream Map".)
#[derive(Clone, Copy, Debug, PartialEq, Eq)]
pub struct Name<'a> {
    /// The bytes of the name, without the NUL that ends it.
    pub text: &'a [u8],
    /// The number of the stream.
    pub stream: u32,
}

/// How many bytes the names have together: 2^64 - 1 where they have more. Names may share bytes of
/// the buffer, and so have far more together than the info stream.
pub fn names_length(names: &[Name<'_>]) -> usize
    ensures { result ≡ min (2 ^ 64 - 1) (sum_by (λ name. length name.text.now) names.now) }
{
    let mut length = 0usize;
    for name in names {
        length = length.saturating_add(name.text.len());
    }
    length
}

impl NameMap {
    /// The stream of the `k`-th pair, with its name. `ends` has the ends of the names at the parts
    /// of the buffer.
    #[tactic(auto, unfolding(crate::specs::Names::pair_at))]
    fn name<'a>(&self, stream: &'a [u8], ends: &[u32], k: u32) -> Name<'a>
        requires map { IsMap stream.now self.now }
        requires ends { AreEnds (buffer_of stream.now) ends.now }
        requires inside { pair_offset stream.now k + 8 ≤ length stream.now }
        requires named { is_named (buffer_of stream.now)
            (number_at 4 stream.now (pair_offset stream.now k))
            ≡ true }
        ensures { named result ≡ named_in (buffer_of stream.now) (pair_at stream.now k) }
    {
        let offset = self.pairs_offset + 8 * k as usize;
        let buffer = self.buffer(stream);
        let start = u32_at(stream, offset) as usize;
        Name {
            text: between(buffer, start, end_at(buffer, ends, start)),
            stream: u32_at(stream, offset + 4),
        }
    }

    /// The streams of all pairs, with their names. This allocates room for exactly these names, and
    /// meanwhile 4 bytes for each 64 bytes of the buffer.
    #[tactic(auto, using(crate::proofs::PairLaws::names_more))]
    pub(crate) fn names<'a, A: Allocator + Copy>(
        &self,
        alloc: A,
        stream: &'a [u8],
    ) -> Result<Vec<Name<'a>, A>, AllocError>
        requires map { IsMap stream.now self.now }
        requires inside { pairs_offset stream.now + 8 * size_of stream.now ≤ length stream.now }
        requires held { first_failing (checks_below (size_of stream.now) (pair_checks stream.now))
            ≡ None }
        ensures value { IfOk result (λ names.
            map named names.items ≡ names_below stream.now (size_of stream.now)) }
    {
        let ends = ends_of(alloc, self.buffer(stream))?;
        let mut names = Vec::with_capacity(alloc, self.size as usize)?;
        for k in 0..self.size {
            names.push(self.name(stream, &ends, k))?;
        }
        Ok(names)
    }

    /// The offset of the feature codes: after the closing word, if there is one.
    #[tactic(auto, unfolding(crate::specs::Names::features_offset, crate::specs::Names::is_closed, crate::specs::Names::pairs_end))]
    fn features_offset(&self, stream: &[u8]) -> usize
        requires map { IsMap stream.now self.now }
        requires inside { pairs_offset stream.now + 8 * size_of stream.now ≤ length stream.now }
        ensures value { result ≡ features_offset stream.now }
        ensures inside { result ≤ length stream.now }
    {
        let end = self.pairs_offset + 8 * self.size as usize;
        if stream.len() - end >= 4 && u32_at(stream, end) == 0 {
            end + 4
        } else {
            end
        }
    }

    /// The feature codes up to the end of the stream. This allocates room for exactly these codes.
    #[tactic(auto, using(crate::proofs::PairLaws::numbers_more), unfolding(crate::specs::Names::features_of))]
    pub(crate) fn features<A: Allocator>(
        &self,
        alloc: A,
        stream: &[u8],
    ) -> Result<Vec<u32, A>, AllocError>
        requires map { IsMap stream.now self.now }
        requires inside { pairs_offset stream.now + 8 * size_of stream.now ≤ length stream.now }
        ensures value { IfOk result (λ features. features.items ≡ features_of stream.now) }
    {
        let start = self.features_offset(stream);
        let count = (stream.len() - start) / 4;
        let mut features = Vec::with_capacity(alloc, count)?;
        for k in 0..count {
            features.push(u32_at(stream, start + 4 * k))?;
        }
        Ok(features)
    }
}
