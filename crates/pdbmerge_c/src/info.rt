//! What stream 1 of a file says of streams and features.

ghost use Rattle.std.specs.Prelude.{◌≡◌, ◌<◌, ◌++◌, ◌∷◌, [], map, OnOk, IfOk, IfErr};
ghost use Rattle.std.specs.List.{flat_map};
ghost use Rattle.pdbmerge_c.specs.Given.{Copies};
ghost use Rattle.pdbmerge_c.specs.Info.{AreFeatures, AreNamedStreams, AreStreamNames, IsFaultOfInfoStream, RefusesInfoStream};

use crate::fault::{Fault, refuse};
use crate::give::give;
use pdb_info::{Info, InfoFault, Name, names_length};
use std::alloc::{AllocError, Global};

/// Appends the numbers of named streams.
fn push_numbers(numbers: &mut Vec<u32>, names: &[Name<'_>]) -> Result<(), AllocError>
    ensures { OnOk result
        (numbers.new.items ≡ numbers.old.items ++ map (λ name. name.stream) names.now) }
{
    for name in names {
        numbers.push(name.stream)?;
    }
    Ok(())
}

/// Appends the names of named streams, each with a NUL behind it.
fn push_names(bytes: &mut Vec<u8>, names: &[Name<'_>]) -> Result<(), AllocError>
    ensures { OnOk result (bytes.new.items
        ≡ bytes.old.items ++ flat_map (λ name. name.text.now ++ 0 ∷ []) names.now) }
{
    for name in names {
        bytes.extend_from_slice(name.text)?;
        bytes.push(0)?;
    }
    Ok(())
}

/// The numbers of the streams that have a name.
#[tactic(auto, using(crate::proofs::InfoLaws::named_numbers, pdb_info::proofs::FoundLaws::info_holds))]
fn list_named_streams(alloc: Global, stream: &[u8]) -> Result<Vec<u32>, InfoFault>
    ensures value { IfOk result (λ numbers. AreNamedStreams stream.now numbers.items) }
    ensures first { IfErr result (IsFaultOfInfoStream stream.now) }
{
    let info = Info::read(alloc, stream)?;
    let mut numbers = Vec::new(alloc);
    push_numbers(&mut numbers, info.names())?;
    Ok(numbers)
}

/// The names of these streams, each with a NUL behind it.
#[tactic(auto, using(crate::proofs::InfoLaws::named_texts, pdb_info::proofs::FoundLaws::info_holds))]
fn list_stream_names(alloc: Global, stream: &[u8]) -> Result<Vec<u8>, InfoFault>
    ensures value { IfOk result (λ bytes. AreStreamNames stream.now bytes.items) }
    ensures first { IfErr result (IsFaultOfInfoStream stream.now) }
{
    let info = Info::read(alloc, stream)?;
    let names = info.names();
    // Names may share their bytes, and have far more together than the stream. So the space for
    // them is asked for before any of them is copied.
    let mut bytes = Vec::with_capacity(alloc, names_length(names).saturating_add(names.len()))?;
    push_names(&mut bytes, names)?;
    Ok(bytes)
}

/// Lists the numbers of the streams that have a name, in the order of the buckets of the named
/// stream map. `stream` are the bytes of stream 1. `count` is how many there are.
///
/// The faults, in order: those of `Info::read`; `ROOM`, and then `count` is set too.
#[tactic(auto, using(crate::proofs::NumberLaws::info_known))]
#[unsafe(no_mangle)]
pub extern "C" fn pdbmerge_named_streams(
    alloc: Global,
    stream: &[u8],
    numbers: &mut [u32],
    count: &mut u64,
    fault: &mut Fault,
) -> u32
    ensures { Copies (AreNamedStreams stream.now) (RefusesInfoStream stream.now)
        numbers.old numbers.new count.old count.new fault.new result }
{
    match list_named_streams(alloc, stream) {
        Ok(found) => give(found.as_slice(), numbers, count, fault),
        Err(why) => refuse(fault, why.number(), None, &why),
    }
}

/// Copies the names of these streams to the front of `out`, in the same order, each with a NUL
/// behind it. `size` is how many bytes they have together.
///
/// The faults, in order: those of `Info::read`; `ROOM`, and then `size` is set too.
#[tactic(auto, using(crate::proofs::NumberLaws::info_known))]
#[unsafe(no_mangle)]
pub extern "C" fn pdbmerge_stream_names(
    alloc: Global,
    stream: &[u8],
    out: &mut [u8],
    size: &mut u64,
    fault: &mut Fault,
) -> u32
    ensures { Copies (AreStreamNames stream.now) (RefusesInfoStream stream.now)
        out.old out.new size.old size.new fault.new result }
{
    match list_stream_names(alloc, stream) {
        Ok(bytes) => give(bytes.as_slice(), out, size, fault),
        Err(why) => refuse(fault, why.number(), None, &why),
    }
}

/// Lists the feature codes that end stream 1. `stream` are its bytes. `count` is how many there are.
///
/// The faults, in order: those of `Info::read`; `ROOM`, and then `count` is set too.
#[tactic(auto, using(crate::proofs::NumberLaws::info_known))]
#[unsafe(no_mangle)]
pub extern "C" fn pdbmerge_features(
    alloc: Global,
    stream: &[u8],
    features: &mut [u32],
    count: &mut u64,
    fault: &mut Fault,
) -> u32
    ensures { Copies (AreFeatures stream.now) (RefusesInfoStream stream.now)
        features.old features.new count.old count.new fault.new result }
{
    match Info::read(alloc, stream) {
        Ok(info) => give(info.features(), features, count, fault),
        Err(why) => refuse(fault, why.number(), None, &why),
    }
}
