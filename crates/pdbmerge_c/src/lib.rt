//! The types of Program Database files, as a library for C.
//!
//! `include/pdbmerge.h` declares what is here, and says what a caller has to ensure. A slice is
//! passed as a pointer and a length. Nothing is kept between calls, and no call keeps or frees what
//! it is lent.
//!
//! Each call returns 0, or the number of a fault, and says in a [`Fault`] what it is. A fault of a
//! file has the number and the text that the program prints.
//!
//! - `pdbmerge_version` is the version of the library.
//! - `pdbmerge_identify` reads what identifies a file, an [`Identity`].
//! - `pdbmerge_check` says whether the types of a file can be trusted, with [`Counts`].
//! - `pdbmerge_merge` writes one file with the types of several, by [`Choices`], and a [`Report`].
//! - `pdbmerge_merge_map` does so too, and lists where each type of each file went.
//! - `pdbmerge_merge_by_types` makes the GUID of the file of its types, and `pdbmerge_guid_of_types`
//!   makes it alone, a [`Guid`].
//! - `pdbmerge_merge_plan` merges by [`PlanChoices`]: it may leave out the files that are refused, each a
//!   [`LeftOutFile`], and says how long its lists are, [`Totals`].
//! - `pdbmerge_layout` reads the container of a file, a [`ContainerCounts`] and the sizes of its streams,
//!   and `pdbmerge_blocks` lists the blocks of these streams. `pdbmerge_stream` copies a stream.
//! - `pdbmerge_named_streams`, `pdbmerge_stream_names` and `pdbmerge_features` list what stream 1
//!   says of streams and features.
//! - `pdbmerge_records` lists where the records of stream 2 begin, and `pdbmerge_record` finds one
//!   by its type index. `pdbmerge_references` lists the types that a record names, each a
//!   [`Reference`], and `pdbmerge_all_references` those that all records name. `pdbmerge_name` copies
//!   the name of the type of a record.
//! - `pdbmerge_diff` lists the types that only one of two files has, each a [`OneSided`].
//! - `pdbmerge_members` copies the text of the definitions of a file, and `pdbmerge_changes` that of
//!   what changed between the definitions of two files.
//!
//! What is proved: the contract of each call says what it answers for all bytes. That of
//! `pdbmerge_merge` is the headline (`IsFileOf` of `pdb_merge`). Unless a call returns 0, `out` and
//! each result but the [`Fault`] stay as they were. There is one exception: if there is too little
//! room for the answer, the results say how much it takes.
#![tactic(auto)]

mod all_references;
mod changes;
mod check;
mod diff;
mod fault;
mod give;
mod guid;
mod identify;
mod info;
mod layout;
mod map_lists;
mod members;
mod merge;
mod merge_by_types;
mod merge_map;
mod merge_plan;
mod name;
mod pair;
mod records;
mod references;
mod seed;
mod settings;
mod stream;
mod text;
mod version;

pub use check::Counts;
pub use diff::OneSided;
pub use fault::Fault;
pub use guid::Guid;
pub use identify::Identity;
pub use layout::ContainerCounts;
pub use merge::{Choices, Report};
pub use merge_plan::{LeftOutFile, PlanChoices, Totals};
pub use references::Reference;
pub use seed::Seed;
