//! The maps of a merge: where the type of each record of its inputs went.

ghost use Rattle.std.specs.Prelude.{◌≡◌, ◌⊎◌, ◌^◌, ◌<◌, ℕ, true, Err, OnOk, IfErr, length, take};
ghost use Rattle.std.specs.Io.KnownBytes.{Appends};
ghost use Rattle.type_trees.specs.Depth.{AreBelow};
ghost use Rattle.tpi_records.specs.Header.{first_index};
ghost use Rattle.msf_streams.specs.Put.{AppendsPart};
ghost use Rattle.output_lines.specs.Maps.{map_lines};
ghost use Rattle.merge_commands.specs.Plan.{kept_lines};

use byte_io::{Sink, put_all};
use output_lines::push_map;
use pdb_merge::KeepMaps;
use show_commands::RunFault;
use std::alloc::Allocator;

/// Makes the lines of the records of one file, and writes them.
fn write_map<W: Sink, A: Allocator>(
    alloc: A,
    file: usize,
    numbers: &[u32],
    out: &mut W,
) -> Result<(), RunFault<A>>
    requires few { length numbers.now < 2 ^ 31 }
    requires small { AreBelow (2 ^ 31) numbers.now }
    ensures value { OnOk result (Appends (W.taken out.old) (W.taken out.new)
        (map_lines file first_index numbers.now)) }
    ensures fault { IfErr result (λ fault. (fault ≡ RunFault.Memory) ⊎ (fault ≡ RunFault.Write)) }
    ensures write { result ≡ Err RunFault.Write →
        (W.is_broken out.new ≡ true)
        × AppendsPart (W.taken out.old) (W.taken out.new)
        (map_lines file first_index numbers.now) }
    ensures untouched { result ≡ Err RunFault.Memory → out.new ≡ out.old }
{
    let mut text = String::new(alloc);
    push_map(&mut text, file, numbers)?;
    put_all(out, text.as_bytes())?;
    Ok(())
}

/// Writes the maps of a merge, if they are kept: a line for each record of each input, in their order. A
/// line has the position of the input, from 0, the type index of the record, and the type index of its
/// type in the file that was written.
///
/// The lines of one input are made at a time. After `Memory`, `out` took the first bytes of the
/// lines. After `Write` it took the first bytes of them too, and is broken.
#[tactic(auto, using(crate::proofs::MapsLaws::took_more, crate::proofs::MapsLaws::took_all))]
pub fn write_maps<W: Sink, K: KeepMaps, A: Allocator + Copy>(
    alloc: A,
    maps: &K,
    out: &mut W,
) -> Result<(), RunFault<A>>
    ensures value { OnOk result
        (Appends (W.taken out.old) (W.taken out.new) (kept_lines (K.maps maps.now))) }
    ensures fault { IfErr result (λ fault. (fault ≡ RunFault.Memory) ⊎ (fault ≡ RunFault.Write)) }
    ensures write { result ≡ Err RunFault.Write →
        (W.is_broken out.new ≡ true)
        × AppendsPart (W.taken out.old) (W.taken out.new) (kept_lines (K.maps maps.now)) }
    ensures memory { result ≡ Err RunFault.Memory →
        (n : ℕ) × Appends (W.taken out.old) (W.taken out.new)
        (take n (kept_lines (K.maps maps.now))) }
{
    for file in 0..maps.count() {
        write_map(alloc, file, maps.map_of(file), out)?;
    }
    Ok(())
}
