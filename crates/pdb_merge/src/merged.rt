//! The file of the types of several files.

ghost use Rattle.pdb_merge.specs.Plan.{FollowsPlan};

use crate::bounded::BoundedInputs;
use crate::fault::OutFault;
use crate::plan::Plan;
use crate::sift::{LeftOut, Sifted, sift_files};
use crate::summary::Summary;
use crate::write::write_canon;
use byte_io::Sink;
use std::alloc::Allocator;
use std::hash::BuildHasher;
use type_table::KeepMaps;

/// What is said of a file that was written for the types of several files.
#[derive(Debug, Drop)]
pub struct Merged<A: Allocator, K> {
    pub summary: Summary,
    /// The map of each file into the types that were written, if they are kept. A file that was left out
    /// has a map of no records.
    pub maps: K,
    /// The files that were left out, in their order.
    pub left_out: Vec<LeftOut<A>, A>,
}

/// Merges files as a plan says, and writes the file of their types into a sink.
///
/// The file has the types of all files that are accepted, each once, in canonical order, and is
/// accepted with just these. The plan says which GUID it has, and what becomes of a file that is not
/// accepted: the merge stops there, or leaves it out and tells why. A file that is needed
/// ([`BoundedInputs::is_needed`]) is never left out.
///
/// [`TypeMaps`](crate::TypeMaps) keeps the maps, in four bytes for each record of all files, and
/// [`NoMaps`](crate::NoMaps) keeps none.
///
/// The faults, in order:
///
/// 1. `Merge`: a file that cannot be read, `Input`, even if one before it has a fault of its own; then,
///    of the file at which the merge stands, `Refused`, where it is not left out, or `TooLarge`, where
///    the types so far have more bytes than the limit of the settings. These name the file by its
///    position, from 0. `Memory` is out of memory.
/// 2. `Memory`: out of memory for writing.
/// 3. `Write`: the sink did not take the whole file. It is broken, and took the first bytes of the file.
///
/// After any other fault the sink is unchanged.
pub fn merge<
    I: BoundedInputs + Drop,
    W: Sink,
    S: BuildHasher + Drop,
    A: Allocator + Copy,
    K: KeepMaps + Drop,
>(
    alloc: A,
    files: I,
    plan: &Plan,
    maps: K,
    hasher: S,
    out: &mut W,
) -> Result<Merged<A, K>, OutFault<A>>
    ensures { FollowsPlan (I.known files) (I.needs files) plan.now K.maps W.taken W.is_broken
        out.old out.new result }
{
    let Sifted {
        canon,
        maps,
        left_out,
    } = sift_files(alloc, files, plan, maps, hasher)?;
    let settings = plan.settings_for(&canon);
    match write_canon(alloc, &canon, &settings, out) {
        Ok(summary) => Ok(Merged {
            summary,
            maps,
            left_out,
        }),
        Err(fault) => Err(fault),
    }
}
