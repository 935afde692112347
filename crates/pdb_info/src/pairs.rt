//! The pairs of the named stream map: which buckets are present, and the names of their streams.

ghost use Rattle.std.specs.Prelude.{◌≡◌, ◌+◌, ◌*◌, ◌<◌, ◌≤◌, ℕ, nat_lt, length, get_or, IfOk};
ghost use Rattle.byte_fields.specs.Check.{Makes, checks_below};
ghost use Rattle.pdb_info.specs.Names.{IsMap, is_named, is_present, present_of, present_buckets, pair_offset, pairs_offset, pair_checks, size_of, buffer_of};

use crate::fault::InfoFault;
use crate::header::HEADER_LENGTH;
use crate::map::{COUNTS, NameMap, check_fits};
use crate::name_ends::ended_length;
use byte_fields::u32_at;

impl NameMap {
    /// The string buffer.
    #[tactic(auto, unfolding(crate::specs::Names::buffer_of, crate::specs::Names::size_offset))]
    pub(crate) fn buffer<'a>(&self, stream: &'a [u8]) -> &'a [u8]
        requires map { IsMap stream.now self.now }
        ensures { result.now ≡ buffer_of stream.now }
    {
        &stream[HEADER_LENGTH + 4..self.size_offset]
    }

    /// Whether a bucket is present.
    #[tactic(auto, using(crate::proofs::BucketLaws::present_word))]
    fn is_present(&self, stream: &[u8], bucket: u64) -> bool
        requires map { IsMap stream.now self.now }
        requires below { bucket < 32 * self.now.present_words }
        ensures { result ≡ is_present (present_of stream.now) bucket }
    {
        let word = u32_at(
            stream,
            self.size_offset + COUNTS + 4 * (bucket / 32) as usize,
        );
        word >> (bucket % 32) & 1 == 1
    }

    /// Checks the `k`-th pair, which belongs to this bucket. A name has an end if it begins before
    /// `ended` in the buffer.
    #[tactic(auto, unfolding(crate::specs::Names::pair_checks))]
    fn check_pair(&self, stream: &[u8], ended: usize, k: u32, bucket: u64) -> Result<(), InfoFault>
        requires map { IsMap stream.now self.now }
        requires ended { (offset : ℕ) →
            is_named (buffer_of stream.now) offset ≡ nat_lt offset ended }
        requires bucket { get_or (present_buckets (present_of stream.now)) k 0 ≡ bucket }
        ensures inside { IfOk result (λ _. pair_offset stream.now k + 8 ≤ length stream.now) }
        ensures first { Makes result (pair_checks stream.now k) }
    {
        let offset = self.pairs_offset + 8 * k as usize;
        check_fits(stream, offset, 8)?;
        if ended <= u32_at(stream, offset) as usize {
            return Err(InfoFault::NameOffset(bucket));
        }
        Ok(())
    }

    /// Checks the pairs, in the order of their buckets.
    pub(crate) fn check_pairs(&self, stream: &[u8]) -> Result<(), InfoFault>
        requires map { IsMap stream.now self.now }
        ensures inside { IfOk result (λ _.
            pairs_offset stream.now + 8 * size_of stream.now ≤ length stream.now) }
        ensures first { Makes result (checks_below (size_of stream.now) (pair_checks stream.now)) }
    {
        let ended = ended_length(self.buffer(stream));
        let mut k = 0;
        for bucket in 0..32 * u64::from(self.present_words) {
            if self.is_present(stream, bucket) {
                self.check_pair(stream, ended, k, bucket)?;
                k += 1;
            }
        }
        Ok(())
    }
}
