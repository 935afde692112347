//! The file of a canonical list.

ghost use Rattle.std.specs.Prelude.{◌≡◌, ◌≢◌, ◌⊎◌, ◌≤◌, true, length, IfOk, IfErr};
ghost use Rattle.std.specs.List.{concat};
ghost use Rattle.msf_streams.specs.Image.{image};
ghost use Rattle.msf_streams.specs.Write.{WritesImage};
ghost use Rattle.pdb_info.specs.Settings.{AreSettings, record_limit};
ghost use Rattle.tpi_records.specs.Written.{header_bytes};
ghost use Rattle.msf_streams.specs.Put.{AppendsPart};
ghost use Rattle.pdb_merge.specs.Merged.{parts_contents, merged_contents, merged_file, WroteFile};

use crate::fault::OutFault;
use crate::summary::Summary;
use byte_io::Sink;
use msf_blocks::BlockSize;
use msf_streams::{WriteFault, write_streams};
use packed_texts::OrderedTexts;
use pdb_info::{Settings, info_bytes};
use std::alloc::Allocator;
use tpi_records::tpi_header_bytes;
use type_table::Canon;

/// The header of the TPI stream of a canonical list.
#[tactic(auto, using(type_table::proofs::CanonTableLaws::canon_short))]
fn header_of<A: Allocator>(canon: &Canon<A>) -> [u8; 56]
    ensures { result ≡ header_bytes (length canon.now) (length (concat canon.now)) }
{
    let count = canon.len();
    tpi_header_bytes(count as u32, canon.bytes_len())
}

/// Writes the file with this info stream and a TPI stream of this header and these records. Returns
/// its length in bytes.
fn write_file<'a, W: Sink, A: Allocator + Copy>(
    alloc: A,
    block_size: BlockSize,
    info: &'a [u8],
    header: &'a [u8],
    records: &'a OrderedTexts<A>,
    out: &mut W,
) -> Result<u32, WriteFault>
    ensures image { WritesImage block_size
        (parts_contents info.now header.now (concat records.now)) W.taken W.is_broken
        out.old out.new result }
    ensures len { IfOk result (λ len.
        len ≡ length (image block_size
        (parts_contents info.now header.now (concat records.now)))) }
{
    write_streams(
        alloc,
        block_size.bytes(),
        &[&[], &[info], &[header], &[], &[]],
        records,
        out,
    )
}

/// Writes the file of a canonical list with these settings into a sink, and returns its length in
/// bytes.
///
/// Everything else is as in [`write_merged`], which calls this.
fn write_merged_len<W: Sink, A: Allocator + Copy>(
    alloc: A,
    canon: &Canon<A>,
    settings: &Settings,
    out: &mut W,
) -> Result<u32, WriteFault>
    ensures settings { AreSettings settings.now }
    // Every answer except `Image` comes only where there is such a file.
    ensures image { WritesImage settings.now.block_size (merged_contents settings.now canon.now)
        W.taken W.is_broken out.old out.new result }
    ensures len { IfOk result (λ len. len ≡ length (merged_file settings.now canon.now)) }
    ensures found { length (concat canon.now) ≤ record_limit settings.now →
        IfErr result (λ fault. (fault ≡ WriteFault.Memory) ⊎ (fault ≡ WriteFault.Write)) }
{
    let block_size = BlockSize::of(settings.block_size());
    let info = info_bytes(settings);
    let header = header_of(canon);
    write_file(alloc, block_size, &info, &header, canon.texts(), out)
}

/// A fault of writing a file that can be written, as a fault of merging.
fn out_fault<A: Allocator>(fault: WriteFault) -> OutFault<A>
    requires { (fault ≡ WriteFault.Memory) ⊎ (fault ≡ WriteFault.Write) }
    ensures memory { fault ≡ WriteFault.Memory → result ≡ OutFault.Memory }
    ensures write { fault ≡ WriteFault.Write → result ≡ OutFault.Write }
{
    match fault {
        WriteFault::Memory => OutFault::Memory,
        _ => OutFault::Write,
    }
}

/// Writes the file of a canonical list that is within the limit into a sink. Returns the summary of
/// the file.
///
/// The faults, in order: `Memory`, when out of memory, and `Write`, where the sink did not take the
/// whole file. After `Write` the sink is broken and took the first bytes of the file. After `Memory`
/// it is unchanged.
#[tactic(auto, unfolding(crate::specs::Merged::merged_file))]
pub(crate) fn write_canon<W: Sink, A: Allocator + Copy>(
    alloc: A,
    canon: &Canon<A>,
    settings: &Settings,
    out: &mut W,
) -> Result<Summary, OutFault<A>>
    requires { length (concat canon.now) ≤ record_limit settings.now }
    ensures settings { AreSettings settings.now }
    ensures value { IfOk result
        (WroteFile canon.now settings.now (W.taken out.old) (W.taken out.new)) }
    ensures fault { IfErr result (λ fault. (fault ≡ OutFault.Memory) ⊎ (fault ≡ OutFault.Write)) }
    ensures broken { IfErr result (λ fault. fault ≡ OutFault.Write → W.is_broken out.new ≡ true) }
    ensures write { IfErr result (λ fault.
        fault ≡ OutFault.Write →
        AppendsPart (W.taken out.old) (W.taken out.new) (merged_file settings.now canon.now)) }
    ensures untouched { IfErr result (λ fault. fault ≢ OutFault.Write → out.new ≡ out.old) }
{
    let bytes = canon.bytes_len();
    let length = match write_merged_len(alloc, canon, settings, out) {
        Ok(length) => length,
        Err(fault) => return Err(out_fault(fault)),
    };
    let types = canon.len() as u32;
    Ok(Summary {
        types,
        bytes,
        length,
    })
}

/// Writes the file of a canonical list with these settings into a sink.
///
/// The file has five streams. The streams 0, 3 and 4 are empty. The faults, in order:
///
/// 1. `Image`: there is no such file. This never happens where the records have at most
///    `record_limit` bytes together, the limit of the settings.
/// 2. `Memory`: out of memory.
/// 3. `Write`: the sink did not take the whole file. It is broken, and it took the first bytes of
///    the file.
///
/// All checks are made before anything is allocated, and everything is allocated before the first
/// byte is written. So the sink is unchanged after `Image` and `Memory`.
pub fn write_merged<W: Sink, A: Allocator + Copy>(
    alloc: A,
    canon: &Canon<A>,
    settings: &Settings,
    out: &mut W,
) -> Result<(), WriteFault>
    // Every answer except `Image` comes only where there is such a file.
    ensures image { WritesImage settings.now.block_size (merged_contents settings.now canon.now)
        W.taken W.is_broken out.old out.new result }
    ensures found { length (concat canon.now) ≤ record_limit settings.now →
        IfErr result (λ fault. (fault ≡ WriteFault.Memory) ⊎ (fault ≡ WriteFault.Write)) }
{
    write_merged_len(alloc, canon, settings, out)?;
    Ok(())
}
