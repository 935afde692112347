//! What holds of accepted files, and of files whose bytes are known.
//!
//! Each function here does nothing: its contract is the law.

ghost use Rattle.file_types.specs.Laws.{KnownPdbFault, KnownTypes, OneListEach};

use std::alloc::Allocator;

/// A file is accepted with only one list of records.
pub fn one_list_each()
    ensures { OneListEach }
{}

/// Of a file of bytes that is known, reads give just the types with which it is accepted.
pub fn known_types()
    ensures { KnownTypes }
{}

/// Of a file that is known, reads give no fault but the first one of the file.
pub fn known_fault<A: Allocator>()
    ensures { KnownPdbFault A }
{}
