//! A part of a file whose length is limited.

ghost use Rattle.std.specs.Prelude.{◌≡◌};
ghost use Rattle.byte_io.specs.declared.limited.Limited.TheVariants.{Of};

/// Why a part of a file is not read, where its length is limited.
#[derive(Debug, PartialEq, Eq, Drop)]
pub enum Limited<F> {
    /// The part has more bytes than the limit allows.
    TooLong,
    /// What was read has this fault.
    Of(F),
}

impl<F> From<F> for Limited<F> {
    ghost from_gives = { λ inner fault. fault ≡ Of inner };

    fn from(fault: F) -> Limited<F> {
        Limited::Of(fault)
    }
}
