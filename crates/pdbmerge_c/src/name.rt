//! The name of the type that a record describes.

ghost use Rattle.std.specs.Prelude.{◌≡◌, ◌≢◌, ◌<◌, ℕ, List, Some, length, option_map, IfOk, IfErr};
ghost use Rattle.tpi_records.specs.Records.{IsFlaw};
ghost use Rattle.pdbmerge_c.specs.Fault.{IsEnded, IsSaid};
ghost use Rattle.pdbmerge_c.specs.Name.{GivesName, IsNamed, RefusesName};

use crate::fault::{Fault, clear, refuse};
use crate::give::give;
use cv_leaves::type_name;
use tpi_records::{TpiFault, first_record};

/// The length of a name that is not there.
const NO_NAME: u64 = u64::MAX;

/// The name of the type that the record at the front of some bytes describes.
fn name_at_front(bytes: &[u8], index: u32) -> Result<Option<&[u8]>, TpiFault>
    ensures value { IfOk result (λ name. IsNamed bytes.now (option_map (λ n. n.now) name)) }
    ensures first { IfErr result (IsFlaw bytes.now index) }
{
    let found = first_record(bytes, index)?;
    Ok(type_name(found))
}

/// Copies the name of the type that a record describes to the front of `out`. `bytes` starts at the
/// front of the record, and may go on after it. `index` is the type index of the record, which a
/// fault names. `size` is how many bytes the name has. It is 2^64 - 1 if there is no name, or none
/// that can be read.
///
/// The faults, in order: those of `first_record`; `ROOM`, and then `size` is set too. This does not
/// allocate.
#[tactic(auto, using(crate::proofs::NumberLaws::tpi_known))]
#[unsafe(no_mangle)]
pub extern "C" fn pdbmerge_name(
    bytes: &[u8],
    index: u32,
    out: &mut [u8],
    size: &mut u64,
    fault: &mut Fault,
) -> u32
    ensures told { IsSaid fault.new result }
    ensures ended { IsEnded fault.new }
    ensures value { result ≡ 0 → GivesName bytes.now size.new out.old out.new }
    ensures room { result ≡ 100 → (name : List ℕ) × IsNamed bytes.now (Some name)
        × (size.new ≡ length name) × (length out.old < length name) }
    ensures refuses { result ≢ 0 → result ≢ 100 → RefusesName bytes.now index fault.new }
    ensures untouched { result ≢ 0 → out.new ≡ out.old }
    ensures kept { result ≢ 0 → result ≢ 100 → size.new ≡ size.old }
{
    match name_at_front(bytes, index) {
        Ok(Some(name)) => give(name, out, size, fault),
        Ok(None) => {
            *size = NO_NAME;
            clear(fault)
        }
        Err(why) => refuse(fault, why.number(), None, &why),
    }
}
