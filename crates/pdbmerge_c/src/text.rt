//! The text of a fault, as far as it is kept. It does not allocate.

ghost use Rattle.std.specs.Prelude.{◌≡◌, ◌∷◌, []};
ghost use Rattle.pdbmerge_c.specs.Fault.{AreFirst, HasTaken};

use std::fmt;
use std::marker::Model;

/// How many bytes of a text are kept. A NUL follows them.
const MOST_TEXT: usize = 235;

/// Takes text, and keeps its first bytes. A space stands for a NUL, so that the text ends at the
/// first NUL.
#[derive(Drop)]
pub(crate) struct Text {
    kept: [u8; 236],
    many: usize,
}

impl Model for Text {
    ghost use Rattle.pdbmerge_c.specs.Fault.{AreFirst, TextView};

    ghost Value = { TextView };

    ghost view = { λ t. record { kept = t.kept; many = t.many } };

    ghost invariant = { λ t. AreFirst t.kept t.many };
}

impl Text {
    /// A text of no bytes.
    pub(crate) fn new() -> Text
        ensures { result.many ≡ 0 }
    {
        Text {
            kept: [0; 236],
            many: 0,
        }
    }

    /// Takes one byte more. A byte that does not fit is counted, and not kept.
    fn push(&mut self, byte: u8)
        ensures { HasTaken self.old self.new (byte ∷ []) }
    {
        if self.many < MOST_TEXT {
            self.kept[self.many] = if byte == 0 { b' ' } else { byte };
        }
        self.many = self.many.saturating_add(1);
    }

    /// What is kept, and NULs, and how many bytes the whole text has.
    pub(crate) fn finish(self) -> ([u8; 236], u64)
        ensures first { AreFirst result.0 result.1 }
        ensures kept { result.0 ≡ self.kept }
        ensures many { result.1 ≡ self.many }
    {
        let Text { kept, many } = self;
        (kept, many as u64)
    }
}

impl fmt::Write for Text {
    fn write_str(&mut self, text: &str) -> fmt::Result
        ensures { HasTaken self.old self.new text.now }
    {
        for byte in text.bytes() {
            self.push(byte);
        }
        Ok(())
    }
}
