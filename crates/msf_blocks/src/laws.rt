//! What holds of every container.
//!
//! The functions here do nothing. The contract of each is a law.

ghost use Rattle.msf_blocks.specs.Laws.{KnownFault, KnownLayout, OneLayout};

/// A file has at most one layout: at most one superblock, and at most one list of streams.
pub fn one_layout()
    ensures { OneLayout }
{}

/// Of a file that is known, reads give just the layouts that the file has.
///
/// So what is said of bytes that reads gave, where nothing is known of the file, is what is said of
/// a file. There are not two definitions of a layout.
pub fn known_layout()
    ensures { KnownLayout }
{}

/// Of a file that is known, reads give bytes with a fault just if it is the first fault of the file.
pub fn known_fault()
    ensures { KnownFault }
{}
