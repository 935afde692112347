//! The number of a fault stands in its text.
//!
//! These are the faults whose texts no run of the program prints. `tests/faults` holds those of all
//! others to their numbers.

use msf_streams::WriteFault;
use pdb_merge::{AddFault, OutFault};
use std::alloc::Global;
use std::fmt::Display;
use std::test::Fail;
use type_table::JoinFault;

/// Whether the text of a fault begins with this number, and no other digit is behind it.
fn tells<D: Display>(alloc: Global, fault: &D, number: u32) -> Result<bool, Fail> {
    let text = fault.to_string(alloc)?;
    let wanted = format!(in alloc; "{number} ")?;
    Ok(text.as_str().starts_with(wanted.as_str()))
}

#[test]
fn numbers_that_no_run_shows(rt: HostRuntime) -> Result<(), Fail> {
    let image = WriteFault::Image;
    assert!(rt; tells(rt.alloc(), &image, image.number())?);
    let joined = JoinFault::TooLarge { bytes: 7 };
    assert!(rt; tells(rt.alloc(), &joined, joined.number())?);
    let added: AddFault = AddFault::TooLarge { bytes: 7 };
    assert!(rt; tells(rt.alloc(), &added, added.number())?);
    let written: OutFault = OutFault::Write;
    assert!(rt; tells(rt.alloc(), &written, written.number())?);
    Ok(())
}
