//! What holds of the files that are written for the types of files.
//!
//! Each function here does nothing: its contract is the law. A law on written files holds for all
//! settings.

ghost use Rattle.pdb_merge.specs.Laws.{MergedReadsBack, MergedHas, MergedFilesDiffer, MergedAgain, EarlierMerge, OneMergedFile, MapsFollow, MapOfMergedFile, TypesOfFirst, TypesOfBoth, AnyOrder, RefusedInAnyOrder, RefusedAddNothing, OneWeight};

use std::alloc::Allocator;

/// A file that is written for the types of files is accepted, and has just these types.
pub fn merged_reads_back()
    ensures { MergedReadsBack }
{}

/// A file that is written for files has the types of these files.
pub fn merged_has()
    ensures { MergedHas }
{}

/// Two lists of files have the same types if the same file is written for both.
pub fn merged_files_differ()
    ensures { MergedFilesDiffer }
{}

/// A file that is written for files can be merged alone, and this gives the same file again.
pub fn merged_again()
    ensures { MergedAgain }
{}

/// The first files of a list may be replaced by the file that is written for them. The types stay
/// the same.
pub fn earlier_merge()
    ensures { EarlierMerge }
{}

/// The same file is written for all lists of files with the same types, if age, GUID and block size
/// are equal.
pub fn one_merged_file()
    ensures { OneMergedFile }
{}

/// Where files were merged before, the maps of the first merge, followed by the map of its file in the
/// second one, are the maps of one merge of all files.
pub fn maps_follow()
    ensures { MapsFollow }
{}

/// A file that was written, and is merged alone, has the map that changes nothing.
pub fn map_of_merged_file()
    ensures { MapOfMergedFile }
{}

/// The types of a list of files are those of the first file and those of the others.
pub fn types_of_first()
    ensures { TypesOfFirst }
{}

/// The types of two lists of files, one after the other, are those of both lists.
pub fn types_of_both()
    ensures { TypesOfBoth }
{}

/// If one list of files can be merged, so can each list of the same files, in any order and each
/// any number of times. Both have the same types.
pub fn any_order()
    ensures { AnyOrder }
{}

/// If a list of files is refused with a fault other than out of memory, no list of the same files
/// can be merged, in whatever order.
pub fn refused_in_any_order<A: Allocator>()
    ensures { RefusedInAnyOrder A }
{}

/// Files that are not accepted add no type: two lists with the same accepted files have the same
/// types. So a merge that leaves out the files that are refused writes what a merge of the others
/// alone writes.
pub fn refused_add_nothing()
    ensures { RefusedAddNothing }
{}

/// The number of bytes that the types of files have together is unique.
pub fn weight_of_files()
    ensures { OneWeight }
{}
