//! A short example for each library, as a user of that library writes it.

ghost use Rattle.std.specs.Prelude.{◌≡◌};
ghost use Rattle.tpi_records.specs.Records.{IsRecord};
ghost use Rattle.cv_leaves.specs.Named.{named_places};

use crate::orders::names_nodes;
use byte_fields::{u16_at, u32_at};
use byte_io::{In, InputFault, Inputs, Out, put_all};
use checked_types::Types;
use command_line::push_paths;
use cv_leaves::{list_places, places, ref_at, type_name};
use error_help::page_of;
use file_types::{Buffer, read_stream_within, read_types};
use host_files::{InputFiles, Said};
use merge_commands::run_diff;
use msf_blocks::Layout;
use msf_streams::{gather, pieces};
use msf_superblock::{Superblock, blocks_for};
use output_lines::push_checked;
use output_words::{push_named, push_quoted};
use packed_texts::PackedTexts;
use pdb_info::{Info, Settings, guid_of};
use pdb_merge::{Plan, merge};
use record_set::RecordSet;
use run_options::{Scope, Shown};
use show_commands::{run_check, run_shown};
use std::alloc::{AllocError, Allocator, Global};
use std::hash::BuildHasher;
use std::test::Fail;
use test_samples::{CONST, TO_FIRST, TO_INT, VOLATILE, folding, sample, stream_with};
use text_set::TextSet;
use topological_order::{Graph, topological_order};
use tpi_records::{Records, tpi_header_bytes};
use type_changes::push_changes;
use type_difference::{Standing, compare};
use type_expressions::push_type;
use type_table::{Canon, NoMaps, Table};
use type_trees::renumber_in_place;

/// `byte_fields` reads little-endian numbers.
#[test]
fn numbers_at_offsets(rt: HostRuntime) {
    let bytes = b"\x10\0\x34\x12\0\0";
    assert_eq!(rt; u16_at(bytes, 0), 16);
    assert_eq!(rt; u32_at(bytes, 2), 0x1234);
}

/// `byte_io` writes into whatever takes bytes.
#[test]
fn bytes_into_a_sink(rt: HostRuntime) -> Result<(), Fail> {
    let mut file = Vec::new(rt.alloc());
    put_all(&mut Out::new(&mut file), b"two parts")?;
    assert_eq!(rt; file.as_slice(), b"two parts".as_slice());
    Ok(())
}

/// `packed_texts` keeps texts one after the other.
#[test]
fn texts_in_one_vector(rt: HostRuntime) -> Result<(), Fail> {
    let mut texts = PackedTexts::new(rt.alloc());
    texts.push(b"four")?;
    texts.push(b"and more")?;
    assert_eq!(rt; texts.get(1), b"and more".as_slice());
    assert_eq!(rt; texts.bytes(), b"fourand more".as_slice());
    Ok(())
}

/// `text_set` gives equal texts one position.
#[test]
fn each_text_once(rt: HostRuntime) -> Result<(), Fail> {
    let mut set = TextSet::with_hasher(rt.alloc(), folding());
    let first = set.intern(b"four")?;
    set.intern(b"more")?;
    assert_eq!(rt; set.intern(b"four")?, first);
    assert_eq!(rt; set.len(), 2);
    Ok(())
}

/// `topological_order` puts each node of a graph after the nodes that it names.
#[test]
fn nodes_after_what_they_name(rt: HostRuntime) -> Result<(), Fail> {
    let mut graph = Graph::with_capacity(rt.alloc(), 3)?;
    graph.push(&[1])?;
    graph.push(&[2])?;
    graph.push(&[])?;
    // A caller shows that no node names one that the graph does not have.
    assert!(rt; names_nodes(&graph));
    let order = topological_order(rt.alloc(), &graph)?;
    assert_eq!(rt; order.as_slice(), [2, 1, 0].as_slice());
    Ok(())
}

/// `msf_superblock` reads what the front of a file says.
#[test]
fn the_front_of_a_file(rt: HostRuntime) -> Result<(), Fail> {
    let superblock = Superblock::read(&sample(rt.alloc())?)?;
    assert_eq!(rt; superblock.block_size(), 512);
    assert_eq!(rt; superblock.num_blocks(), 7);
    assert_eq!(rt; blocks_for(512, superblock.directory_bytes()), 1);
    Ok(())
}

/// `msf_blocks` reads where the streams of a file are.
#[test]
fn the_streams_of_a_file(rt: HostRuntime) -> Result<(), Fail> {
    let file = sample(rt.alloc())?;
    let layout = Layout::read(rt.alloc(), &file)?;
    assert_eq!(rt; layout.superblock().block_size(), 512);
    assert_eq!(rt; layout.streams(), 5);
    assert_eq!(rt; layout.size(2), Some(80));
    assert_eq!(rt; layout.block(2, 0), Some(6));
    Ok(())
}

/// `msf_streams` gathers the bytes of a stream, or lends them.
#[test]
fn the_bytes_of_a_stream(rt: HostRuntime) -> Result<(), Fail> {
    let file = sample(rt.alloc())?;
    let layout = Layout::read(rt.alloc(), &file)?;
    let stream = gather(rt.alloc(), &file, &layout, 2)?;
    assert_eq!(rt; stream.len(), 80);
    for piece in pieces(&file, &layout, 2).ok_or("no stream 2")? {
        assert_eq!(rt; piece, stream.as_slice());
    }
    Ok(())
}

/// `pdb_info` reads what identifies a file.
#[test]
fn the_guid_of_a_file(rt: HostRuntime) -> Result<(), Fail> {
    let file = sample(rt.alloc())?;
    let layout = Layout::read(rt.alloc(), &file)?;
    let stream = gather(rt.alloc(), &file, &layout, 1)?;
    let info = Info::read(rt.alloc(), &stream)?;
    let guid = info.header().guid().to_string(rt.alloc())?;
    assert_eq!(rt; info.header().age(), 1);
    assert_eq!(rt; guid.as_str(), "00112233-4455-6677-8899-aabbccddeeff");
    Ok(())
}

/// `tpi_records` cuts a stream into records.
#[test]
fn the_records_of_a_stream(rt: HostRuntime) -> Result<(), Fail> {
    let mut stream = Vec::new(rt.alloc());
    stream.extend_from_slice(&tpi_header_bytes(1, 12))?;
    stream.extend_from_slice(TO_INT)?;
    let records = Records::read(rt.alloc(), &stream)?;
    assert_eq!(rt; records.len(), 1);
    for record in &records {
        assert_eq!(rt; record, TO_INT);
    }
    Ok(())
}

/// `cv_leaves` finds the type indices in a record.
#[test]
fn the_references_of_a_record(rt: HostRuntime) -> Result<(), Fail> {
    cv_leaves::check(TO_INT)?;
    let place = places(TO_INT).next().ok_or("it names no type")?;
    assert_eq!(rt; place, 0);
    assert_eq!(rt; ref_at(TO_INT, place), 0x74);
    assert_eq!(rt; type_name(TO_INT), None);
    Ok(())
}

/// `type_trees` makes a record name the same types by other type indices.
#[test]
fn a_record_that_is_renumbered(rt: HostRuntime) -> Result<(), Fail> {
    let file = sample(rt.alloc())?;
    let mut buffer = Buffer::new(rt.alloc());
    let types = read_types(rt.alloc(), &file, &mut buffer)?;
    let record = types.get(0).ok_or("no such type")?;
    let mut places = Vec::new(rt.alloc());
    assert!(rt; list_places(record, &mut places)?);
    // it names only simple types, and these stay
    assert!(rt; places.is_empty());
    let mut copy = Vec::new(rt.alloc());
    copy.extend_from_slice(record)?;
    assert!(rt; renumber_in_place(&mut copy, &places, &[]));
    assert_eq!(rt; copy.as_slice(), record);
    Ok(())
}

/// Puts a record into a set that has room for it.
fn put_record<S: BuildHasher, A: Allocator>(
    set: &mut RecordSet<S, A>,
    record: &[u8],
    places: &[u16],
) -> Result<usize, Fail>
    requires framed { IsRecord «record».now }
    requires listed { places.now ≡ named_places «record».now }
{
    let has_room = set.bytes().len() as u64 + (record.len() as u64) < (1 << 33);
    if !has_room || 4 * places.len() as u64 > record.len() as u64 {
        return Err("no room".into());
    }
    Ok(set.intern(record, places)?)
}

/// `record_set` keeps each record once, with the places at which it names other records.
#[test]
fn each_record_once(rt: HostRuntime) -> Result<(), Fail> {
    let file = sample(rt.alloc())?;
    let mut buffer = Buffer::new(rt.alloc());
    let types = read_types(rt.alloc(), &file, &mut buffer)?;
    let record = types.get(0).ok_or("no such type")?;
    let mut places = Vec::new(rt.alloc());
    assert!(rt; list_places(record, &mut places)?);
    let mut set = RecordSet::with_hasher(rt.alloc(), folding());
    let first = put_record(&mut set, record, &places)?;
    assert_eq!(rt; put_record(&mut set, record, &places)?, first);
    assert_eq!(rt; set.len(), 1);
    Ok(())
}

/// `checked_types` checks records, and a table of `type_table` lists the types of several files in
/// canonical order (`canonical_list`).
#[test]
fn types_in_canonical_order(rt: HostRuntime) -> Result<(), Fail> {
    let file = sample(rt.alloc())?;
    let mut buffer = Buffer::new(rt.alloc());
    let types = read_types(rt.alloc(), &file, &mut buffer)?;
    assert_eq!(rt; types.levels(), 1);
    let mut table = Table::with_hasher(rt.alloc(), folding());
    table.add(rt.alloc(), &types, 1000)?;
    drop(types);
    let mut input = file.as_slice();
    let Ok(stream) = read_stream_within(rt.alloc(), &mut input, u32::MAX, &mut buffer) else {
        return Err("no stream".into());
    };
    // each record names only earlier ones, so the records can be added as they stand
    assert!(rt; table.add_stream(rt.alloc(), stream, 1000, &mut NoMaps));
    let canon = table.finish(rt.alloc())?;
    assert_eq!(rt; canon.len(), 2);
    assert_eq!(rt; canon.get(1), Some(TO_INT));
    Ok(())
}

/// The types of a TPI stream.
fn types_in(alloc: Global, stream: &[u8]) -> Result<Types<'_>, Fail> {
    let records = Records::read(alloc, stream)?;
    Ok(Types::check(alloc, records)?)
}

/// How the records of one list of types stand to another list.
fn standings(
    alloc: Global,
    first: &Types<'_>,
    second: &Types<'_>,
) -> Result<Vec<Standing>, AllocError> {
    let difference = compare(alloc, first, second, folding())?;
    Ok(difference.first)
}

/// How the records of one stream stand to those of another one.
fn standings_in(alloc: Global, one: &[u8], other: &[u8]) -> Result<Vec<Standing>, Fail> {
    let first = types_in(alloc, one)?;
    let second = types_in(alloc, other)?;
    Ok(standings(alloc, &first, &second)?)
}

/// `type_difference` tells which types one list has and the other lacks, and where that begins.
#[test]
fn where_two_lists_differ(rt: HostRuntime) -> Result<(), Fail> {
    // a const int and a pointer to it, and a volatile int and a pointer to it
    let one = stream_with(rt.alloc(), &[CONST, TO_FIRST])?;
    let other = stream_with(rt.alloc(), &[VOLATILE, TO_FIRST])?;
    let found = standings_in(rt.alloc(), &one, &other)?;
    let want = [Standing::Origin, Standing::Follows];
    assert_eq!(rt; found.as_slice(), want.as_slice());
    Ok(())
}

/// The enumeration `Kind` without values, of type int.
const KIND_OF_INT: &[u8] = b"\x16\0\x07\x15\0\0\0\0\x74\0\0\0\0\0\0\0Kind\0\xf3\xf2\xf1";

/// The same, of type unsigned char.
const KIND_OF_BYTE: &[u8] = b"\x16\0\x07\x15\0\0\0\0\x20\0\0\0\0\0\0\0Kind\0\xf3\xf2\xf1";

/// What changed between the types of two streams.
fn changes_in(alloc: Global, one: &[u8], other: &[u8]) -> Result<Vec<u8>, Fail> {
    let first = types_in(alloc, one)?;
    let second = types_in(alloc, other)?;
    let mut text = Vec::new(alloc);
    push_changes(alloc, folding(), &mut text, &first, &second)?;
    Ok(text)
}

/// `type_changes` tells what changed between two lists of types.
#[test]
fn what_changed_between_two_lists(rt: HostRuntime) -> Result<(), Fail> {
    // the enumeration Kind, whose values were of type int, and are unsigned characters now
    let one = stream_with(rt.alloc(), &[KIND_OF_INT])?;
    let other = stream_with(rt.alloc(), &[KIND_OF_BYTE])?;
    let text = changes_in(rt.alloc(), &one, &other)?;
    let want = b"~ enumeration \"Kind\" of int -> unsigned char\n".as_slice();
    assert_eq!(rt; text.as_slice(), want);
    Ok(())
}

/// `file_types` reads the types of a file.
#[test]
fn the_types_of_a_file(rt: HostRuntime) -> Result<(), Fail> {
    let file = sample(rt.alloc())?;
    let mut buffer = Buffer::new(rt.alloc());
    let types = read_types(rt.alloc(), &file, &mut buffer)?;
    assert_eq!(rt; types.len(), 2);
    Ok(())
}

/// `pdb_merge` writes one file with the types of several.
#[test]
fn a_merge_of_two_files(rt: HostRuntime) -> Result<(), Fail> {
    let file = sample(rt.alloc())?;
    let settings = Settings::new(guid_of([0x11; 16]), 1, 1000, 4096).ok_or("no settings")?;
    let mut bytes = Vec::new(rt.alloc());
    let (plan, out) = (Plan::new(settings), &mut Out::new(&mut bytes));
    let files: [&[u8]; 2] = [&file, &file];
    let merged = merge(rt.alloc(), files.as_slice(), &plan, NoMaps, folding(), out)?;
    assert_eq!(rt; merged.summary.types, 2);
    let mut buffer = Buffer::new(rt.alloc());
    assert_eq!(rt; read_types(rt.alloc(), &bytes, &mut buffer)?.len(), 2);
    Ok(())
}

/// `output_lines` makes the lines that commands print.
#[test]
fn lines_of_a_check(rt: HostRuntime) -> Result<(), Fail> {
    let mut text = String::new(rt.alloc());
    push_checked(&mut text, 2, 24, 1)?;
    assert_eq!(rt; text.as_str(), "accepted\nrecords 2\nbytes 24\nlevels 1\n");
    Ok(())
}

/// `output_words` appends numbers and names.
#[test]
fn lines_of_a_text(rt: HostRuntime) -> Result<(), Fail> {
    let mut text = String::new(rt.alloc());
    push_named(&mut text, "records", 2)?;
    push_quoted(&mut text, b"a \"name\"")?;
    assert_eq!(rt; text.as_str(), "records 2\n\"a \\x22name\\x22\"");
    Ok(())
}

/// `type_expressions` tells what a type is.
#[test]
fn the_words_of_a_type(rt: HostRuntime) -> Result<(), Fail> {
    let file = sample(rt.alloc())?;
    let mut buffer = Buffer::new(rt.alloc());
    let types = read_types(rt.alloc(), &file, &mut buffer)?;
    let mut text = Vec::new(rt.alloc());
    push_type(&mut text, &types, 0x1000)?;
    assert_eq!(rt; text.as_slice(), b"pointer to int".as_slice());
    Ok(())
}

/// `run_options` says what is asked for.
#[test]
fn types_that_are_asked_for(rt: HostRuntime) -> Result<(), Fail> {
    let file = sample(rt.alloc())?;
    let (files, mut text) = ([file.as_slice()], Vec::new(rt.alloc()));
    let out = &mut Out::new(&mut text);
    run_shown(rt.alloc(), Shown::Types, &files.as_slice(), u32::MAX, out)?;
    assert!(rt; text.starts_with(b"0x1000 "));
    Ok(())
}

/// `show_commands` runs a command on bytes.
#[test]
fn a_check_of_a_file(rt: HostRuntime) -> Result<(), Fail> {
    let file = sample(rt.alloc())?;
    let mut text = Vec::new(rt.alloc());
    run_check(
        rt.alloc(),
        &mut In::new(file.as_slice()),
        u32::MAX,
        &mut Out::new(&mut text),
    )?;
    assert_eq!(rt;
        text.as_slice(),
        b"accepted\nrecords 2\nbytes 24\nlevels 1\n".as_slice()
    );
    Ok(())
}

/// `merge_commands` compares two files.
#[test]
fn a_file_and_itself(rt: HostRuntime) -> Result<(), Fail> {
    let file = sample(rt.alloc())?;
    let (files, mut text) = ([file.as_slice(), &file], Vec::new(rt.alloc()));
    let out = &mut Out::new(&mut text);
    let same = run_diff(rt.alloc(), &files.as_slice(), Scope::All, out, folding())?;
    assert!(rt; same && text.is_empty());
    Ok(())
}

/// `error_help` says what a fault means.
#[test]
fn the_page_of_a_fault(rt: HostRuntime) -> Result<(), Fail> {
    let page = page_of(37).ok_or("no such fault")?;
    assert_eq!(rt; page.meaning, "a read failed");
    Ok(())
}

/// `command_line` reads lists of paths, which stand for arguments.
#[test]
fn the_paths_of_a_list(rt: HostRuntime) -> Result<(), Fail> {
    let mut paths = Vec::new(rt.alloc());
    let read = push_paths(rt.alloc(), b"one.pdb\nother.pdb\n", b'\n', &mut paths);
    assert!(rt; read.is_ok());
    assert_eq!(rt; paths.len(), 2);
    assert_eq!(rt; paths[1].as_str(), "other.pdb");
    Ok(())
}

/// `host_files` opens the files that the program reads.
#[test]
fn a_file_that_is_not_there(rt: HostRuntime) -> Result<(), Fail> {
    let said = Said::new();
    let names = [String::from_str(rt.alloc(), "no/such/file.pdb")?];
    let files = InputFiles::new(&rt, &names, u32::MAX, None, &said);
    assert_eq!(rt; files.check(0), Err(InputFault::Open));
    Ok(())
}
