//! Inputs whose parts are held against a limit, and some of which a merge never leaves out.

ghost use Rattle.std.specs.Prelude.{◌↔◌, ℕ, IfSome, IsTrue};
ghost use Rattle.pdb_merge.specs.Parts.{HaveShortParts};

use byte_io::Inputs;

/// Several inputs, whose parts may be limited, and some of which may be needed.
///
/// A slice of slices has no limit, and needs none of its files.
pub trait BoundedInputs: Inputs {
    /// The inputs that are never left out of a merge.
    ghost needs: { Self → ℕ → Type 0 };

    /// How many bytes the directory of an input may have, and each stream that is read of it.
    /// `u32::MAX` is no limit. An input whose bytes are known has no longer part.
    fn limit(&self) -> u32
        ensures short { IfSome (Self.known self.now) (λ each. HaveShortParts each result) }
    {
        u32::MAX
    }

    /// Whether the input at this position, from 0, is never left out of a merge: where it is refused,
    /// the merge is.
    fn is_needed(&self, input: usize) -> bool
        ensures { IsTrue result ↔ Self.needs self.now input };
}

impl<'f> BoundedInputs for &'f [&'f [u8]] {
    ghost needs = { λ _ _. ⊥ };

    fn is_needed(&self, _input: usize) -> bool {
        false
    }
}
