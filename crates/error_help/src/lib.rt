//! What is said of each fault: what it means, what makes it, and what to do.
//!
//! [`page_of`] gives the [`Page`] of a fault by its number. `pdbmerge explain` prints it, and
//! docs/FAULTS.md has the same texts.
//!
//! What is proved: there is a page for each number from 1 to [`LAST`], and for no other, and it says this
//! number. That the texts are right is not proved.
//!
//! # Example
//!
//! `error_help` says what a fault means. This is a test of the crate `test_examples`:
//!
//! ```
//! fn the_page_of_a_fault(rt: HostRuntime) -> Result<(), Fail> {
//!     let page = page_of(37).ok_or("no such fault")?;
//!     assert_eq!(rt; page.meaning, "a read failed");
//!     Ok(())
//! }
//! ```
#![tactic(auto)]

mod container;
mod doing;
mod leaves;
mod page;
mod records;
mod streams;

ghost use Rattle.std.specs.Prelude.{◌≡◌, ◌↔◌, ◌≤◌, IfSome, IsSome};

pub use page::Page;

/// The number [`LAST`] as a literal; with a text, that text and the number behind it.
#[macro_export]
macro_rules! last {
    (@ $number:literal) => { $number };
    (@ $number:literal $text:literal) => { concat!($text, $number) };
    ($($text:literal)?) => { $crate::last!(@ 41 $($text)?) };
}

/// The greatest number of a fault. The numbers begin with 1, and none is left out.
pub const LAST: u32 = last!();

/// What is said of the fault that has this number. `None` where no fault has it: the numbers go from
/// 1 to [`LAST`].
pub fn page_of(number: u32) -> Option<Page>
    ensures value { IfSome result (λ page. page.number ≡ number) }
    ensures some { IsSome result ↔ ((1 ≤ number) × (number ≤ LAST)) }
{
    match number {
        1 => Some(container::SHORT),
        2 => Some(container::MAGIC),
        3 => Some(container::BLOCK_SIZE),
        4 => Some(container::FREE_MAP_BLOCK),
        5 => Some(container::FILE_SIZE),
        6 => Some(container::DIRECTORY_SIZE),
        7 => Some(container::BLOCK_MAP_ADDR),
        8 => Some(container::DIRECTORY_BLOCK),
        9 => Some(container::DIRECTORY_SHORT),
        10 => Some(container::STREAM_BLOCK),
        11 => Some(streams::NO_STREAM),
        12 => Some(streams::INFO_SHORT),
        13 => Some(streams::NAMES_SHORT),
        14 => Some(streams::NAMES_COUNT),
        15 => Some(streams::NAME_OFFSET),
        16 => Some(records::TPI_SHORT),
        17 => Some(records::TPI_VERSION),
        18 => Some(records::TPI_HEADER_SIZE),
        19 => Some(records::TPI_BEGIN),
        20 => Some(records::TPI_END),
        21 => Some(records::TPI_BYTES),
        22 => Some(records::RECORD_SHORT),
        23 => Some(records::RECORD_LEN),
        24 => Some(records::RECORD_COUNT),
        25 => Some(leaves::LEAF),
        26 => Some(leaves::BODY),
        27 => Some(leaves::MEMBER),
        28 => Some(leaves::NUMERIC),
        29 => Some(leaves::NAME),
        30 => Some(leaves::PAD),
        31 => Some(leaves::REF),
        32 => Some(doing::TOO_LARGE),
        33 => Some(doing::MEMORY),
        34 => Some(doing::CYCLE),
        35 => Some(doing::IMAGE),
        36 => Some(doing::WRITE),
        37 => Some(doing::READ),
        38 => Some(doing::TOO_LONG),
        39 => Some(doing::NO_RECORD),
        40 => Some(doing::OPEN),
        41 => Some(doing::CREATE),
        _ => None,
    }
}
