//! What is said of a fault.

use std::fmt;

/// What is said of a fault.
///
/// It prints as four lines: `fault`, `means`, `cause` and `to do`, each with its text.
#[derive(Clone, Copy, Debug, PartialEq, Eq)]
pub struct Page {
    /// The number of the fault.
    pub number: u32,
    /// The name of the fault and its fields: d stands for a decimal number, x for a hexadecimal one.
    pub text: &'static str,
    /// What the fault means.
    pub meaning: &'static str,
    /// What makes such a fault.
    pub cause: &'static str,
    /// What to do.
    pub advice: &'static str,
}

impl fmt::Display for Page {
    fn fmt<W: fmt::Write>(&self, f: &mut fmt::Formatter<W>) -> fmt::Result {
        writeln!(f, "fault: {} {}", self.number, self.text)?;
        writeln!(f, "means: {}", self.meaning)?;
        writeln!(f, "cause: {}", self.cause)?;
        writeln!(f, "to do: {}", self.advice)
    }
}
