//! Rows of items that lie one after the other in one vector: where each of them begins and ends.

ghost use Rattle.std.specs.Prelude.{◌≡◌, ◌^◌, ◌<◌, ◌≤◌, ◌∷◌, length, get_or};

/// Where a row begins, if the rows end at these places: where the row before it ends, or at 0.
#[tactic(auto, using(crate::proofs::PackedLaws::first_start, crate::proofs::PackedLaws::next_start))]
pub fn row_start(ends: &[u32], position: usize) -> usize
    requires inside { position ≤ length ends.now }
    ensures value { result ≡ get_or (0 ∷ ends.now) position 0 }
    ensures small { result < 2 ^ 32 }
{
    match position.checked_sub(1) {
        Some(before) => ends[before] as usize,
        None => 0,
    }
}

/// Where a row ends, if the rows end at these places.
pub fn row_end(ends: &[u32], position: usize) -> usize
    requires inside { position < length ends.now }
    ensures value { result ≡ get_or ends.now position 0 }
    ensures small { result < 2 ^ 32 }
{
    ends[position] as usize
}
