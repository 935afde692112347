//! What is written over a text before it is looked up.

ghost use Rattle.std.specs.Prelude.{◌≡◌, ℕ, List, false, IsTrue, length};

/// Something that is written over a text before it is looked up.
pub trait Change {
    /// The texts that it may be given.
    ghost takes: { Self → List ℕ → Type 0 };

    /// What it makes of a text.
    ghost makes: { Self → List ℕ → List ℕ → Type 0 };

    /// The texts of which it makes nothing.
    ghost refuses: { Self → List ℕ → Type 0 };

    /// Writes over a text. Returns whether it made something of it.
    fn write_over(&self, text: &mut [u8]) -> bool
        requires { takes self.now text.old }
        ensures made { IsTrue result → makes self.now text.old text.new }
        ensures same { IsTrue result → length text.new ≡ length text.old }
        ensures none { result ≡ false → refuses self.now text.old };
}

/// Leaves each text as it is.
#[derive(Clone, Copy, Debug)]
pub struct Unchanged;

impl Change for Unchanged {
    ghost takes = { λ _ _. Unit {0} };

    ghost makes = { λ _ before after. after ≡ before };

    ghost refuses = { λ _ _. ⊥ };

    fn write_over(&self, _text: &mut [u8]) -> bool {
        true
    }
}
