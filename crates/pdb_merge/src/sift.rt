//! The types of those of several files that are accepted.

ghost use Rattle.std.specs.Prelude.{◌≡◌, ◌↔◌, ◌<◌, ◌≤◌, ◌+◌, ◌^◌, ◌++◌, ◌∷◌, [], ℕ, List, IsTrue, length, get_or, OnOk, IfOk, IfErr, IfSome};
ghost use Rattle.std.specs.List.{concat};
ghost use Rattle.byte_io.specs.Inputs.{CanRead, Give};
ghost use Rattle.canonical_list.specs.Finish.{IsCanonOf};
ghost use Rattle.type_trees.specs.Tree.{IsType};
ghost use Rattle.pdb_info.specs.Settings.{record_limit};
ghost use Rattle.pdb_merge.specs.Merging.{AddsFile};
ghost use Rattle.pdb_merge.specs.Own.{IsOwnFault, OwnNamesFault, ReadsTo};
ghost use Rattle.pdb_merge.specs.Sift.{AcceptsSift, AreListed, AreMapsBut, AreSpared, LeavesOut, MustStay, RefusesSift, SiftsUpTo};
ghost use Rattle.pdb_merge.specs.Union.{HasType, Within};
ghost use Rattle.type_table.specs.Maps.{with_map};

use crate::bounded::BoundedInputs;
use crate::fault::MergeFault;
use crate::input::{InputBuffer, OwnFault, read_input, refuse};
use crate::plan::Plan;
use crate::types_so_far::TypesSoFar;
use file_types::PdbFault;
use run_options::OnRefused;
use std::alloc::{AllocError, Allocator, Global};
use std::hash::BuildHasher;
use thiserror::Error;
use type_table::{Canon, KeepMaps};

/// A file that was left out of a merge, because it is not accepted.
#[derive(Debug, PartialEq, Eq, Drop, Error)]
#[error("file {file}: {fault}")]
pub struct LeftOut<A: Allocator = Global> {
    /// The position of the file, from 0.
    pub file: usize,
    /// Its first fault, which is never out of memory.
    pub fault: PdbFault<A>,
}

/// The types of those of several files that are accepted.
#[derive(Debug, Drop)]
pub struct Sifted<A: Allocator, K> {
    /// The canonical list of the types.
    pub canon: Canon<A>,
    /// The map of each file into the list, if they are kept. A file that was left out has a map of no
    /// records.
    pub maps: K,
    /// The files that were left out, in their order.
    pub left_out: Vec<LeftOut<A>, A>,
}

/// Whether the file at a position must not be left out.
fn must_stay<I: BoundedInputs>(inputs: &I, input: usize, refused: OnRefused) -> bool
    ensures { IsTrue result ↔ MustStay refused (I.needs inputs.now) input }
{
    match refused {
        OnRefused::Stop => true,
        OnRefused::Skip => inputs.is_needed(input),
    }
}

/// Adds the types of the file at a position. The fault is that of this file alone: later files are not
/// looked at.
fn add_own<I: BoundedInputs, S: BuildHasher, A: Allocator + Copy, K: KeepMaps>(
    alloc: A,
    inputs: &I,
    input: usize,
    buffer: &mut InputBuffer<A>,
    merge: &mut TypesSoFar<S, A, K>,
) -> Result<(), OwnFault<A>>
    requires inside { IfSome (I.known inputs.now) (λ each. input < length each) }
    requires before { IfSome (I.known inputs.now) (λ each. CanRead each input) }
    ensures value { (files : List (List ℕ)) → Give (I.known inputs.now) files →
        OnOk result (AddsFile merge.old merge.new (get_or files input [])) }
    ensures within { OnOk result (Within (IsType merge.new.types) merge.new.limit) }
    ensures read { OnOk result (IfSome (I.known inputs.now) (λ each. CanRead each (input + 1))) }
    ensures limit { merge.new.limit ≡ merge.old.limit }
    ensures kept { IfErr result (λ _. merge.new ≡ merge.old) }
    ensures own { (files : List (List ℕ)) → Give (I.known inputs.now) files →
        IfErr result (IsOwnFault merge.old.types merge.old.limit (get_or files input [])) }
    ensures first { IfErr result (λ fault.
        IfSome (I.known inputs.now) (λ each. ReadsTo each input fault)) }
    ensures named { IfErr result OwnNamesFault }
{
    let stream = read_input(alloc, inputs, input, buffer)?;
    match merge.add_stream(alloc, stream) {
        Ok(()) => Ok(()),
        Err(fault) => Err(OwnFault::Of(fault)),
    }
}

/// Leaves out one more file. Its map has no records.
fn leave_out<S: BuildHasher, A: Allocator + Copy, K: KeepMaps>(
    merge: &mut TypesSoFar<S, A, K>,
    left_out: &mut Vec<LeftOut<A>, A>,
    one: LeftOut<A>,
) -> Result<(), AllocError>
    ensures types { merge.new.types ≡ merge.old.types }
    ensures limit { merge.new.limit ≡ merge.old.limit }
    ensures maps { OnOk result (merge.new.maps ≡ with_map merge.old.maps []) }
    ensures left { OnOk result (left_out.new.items ≡ left_out.old.items ++ one ∷ []) }
{
    merge.keep_no_records()?;
    left_out.push(one)?;
    Ok(())
}

/// Adds the types of the file at a position, or leaves the file out if it has a fault of its own and
/// need not stay.
fn sift_input<I: BoundedInputs, S: BuildHasher, A: Allocator + Copy, K: KeepMaps>(
    alloc: A,
    inputs: &I,
    input: usize,
    refused: OnRefused,
    buffer: &mut InputBuffer<A>,
    merge: &mut TypesSoFar<S, A, K>,
    left_out: &mut Vec<LeftOut<A>, A>,
) -> Result<(), MergeFault<A>>
    requires few { input + 1 < 2 ^ 64 }
    requires inside { IfSome (I.known inputs.now) (λ each. input < length each) }
    requires so_far { SiftsUpTo (I.known inputs.now) (MustStay refused (I.needs inputs.now)) input
        merge.old left_out.old.items }
    ensures next { OnOk result (SiftsUpTo (I.known inputs.now)
        (MustStay refused (I.needs inputs.now)) (input + 1) merge.new left_out.new.items) }
    ensures limit { merge.new.limit ≡ merge.old.limit }
    ensures refuses { IfErr result (RefusesSift (I.known inputs.now)
        (MustStay refused (I.needs inputs.now)) merge.old.limit) }
{
    let Err(fault) = add_own(alloc, inputs, input, buffer, merge) else {
        return Ok(());
    };
    if must_stay(inputs, input, refused) {
        return Err(refuse(inputs, input, fault));
    }
    match fault.refused() {
        Ok(fault) => {
            let one = LeftOut { file: input, fault };
            match leave_out(merge, left_out, one) {
                Ok(()) => Ok(()),
                Err(_) => Err(MergeFault::Memory),
            }
        }
        Err(fault) => Err(refuse(inputs, input, fault)),
    }
}

/// The canonical list of the types of those of these files that are accepted, the map of each file into
/// the list, and the files that were left out, because they are not.
///
/// The files are read one at a time, in order. A file that cannot be read is refused first, `Input`,
/// even if one before it has a fault of its own. Then come, of the file at which the merge stands,
/// `Refused`, where it is not accepted and must not be left out, and `TooLarge`, where the types so
/// far, with those of this file, have more bytes than the limit of the settings. These name the file
/// by its position, from 0. `Memory` is out of memory.
///
/// Apart from the types of all files so far, at most one file is in memory. A file that the inputs
/// open by position is read only as far as its types need it. A read by position that fails is no
/// fault: the file is then read whole, from its start.
pub fn sift_files<
    I: BoundedInputs + Drop,
    S: BuildHasher + Drop,
    A: Allocator + Copy,
    K: KeepMaps + Drop,
>(alloc: A, files: I, plan: &Plan, maps: K, hasher: S) -> Result<Sifted<A, K>, MergeFault<A>>
    // The types are exactly those of the files that are accepted.
    ensures value { (given : List (List ℕ)) → Give (I.known files) given →
        IfOk result (λ sifted. IsCanonOf sifted.canon (HasType given)) }
    ensures left { (given : List (List ℕ)) → Give (I.known files) given →
        IfOk result (λ sifted. LeavesOut given sifted.left_out.items) }
    ensures maps { (given : List (List ℕ)) → Give (I.known files) given → IfOk result (λ sifted.
        IfSome (K.maps sifted.maps) (AreMapsBut given sifted.left_out.items sifted.canon)) }
    ensures within { IfOk result (λ sifted.
        length (concat sifted.canon) ≤ record_limit plan.now.settings) }
    ensures accepts { OnOk result (AcceptsSift (I.known files)
        (MustStay plan.now.refused (I.needs files)) (record_limit plan.now.settings)) }
    // Whatever is known of the files, each is left out once, in their order.
    ensures listed { IfOk result (λ sifted. (n : ℕ) × AreListed n sifted.left_out.items) }
    ensures spared { IfOk result (λ sifted.
        AreSpared (MustStay plan.now.refused (I.needs files)) sifted.left_out.items) }
    ensures refuses { IfErr result (RefusesSift (I.known files)
        (MustStay plan.now.refused (I.needs files)) (record_limit plan.now.settings)) }
{
    let limit = plan.settings.record_limit();
    let mut merge = TypesSoFar::new(alloc, limit, hasher, maps);
    let mut left_out = Vec::new(alloc);
    {
        // The memory of the files is given back before the list is made.
        let mut buffer = InputBuffer::new(alloc);
        for input in 0..files.count() {
            let refused = plan.refused;
            sift_input(
                alloc,
                &files,
                input,
                refused,
                &mut buffer,
                &mut merge,
                &mut left_out,
            )?;
        }
    }
    match merge.into_canon(alloc) {
        Ok((canon, maps)) => Ok(Sifted {
            canon,
            maps,
            left_out,
        }),
        Err(_) => Err(MergeFault::Memory),
    }
}
