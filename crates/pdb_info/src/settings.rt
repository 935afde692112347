//! The settings of a file that is written.

ghost use Rattle.std.specs.Prelude.{◌≡◌, ◌≤◌, ◌↔◌, IfSome, IsSome};
ghost use Rattle.byte_fields.specs.Bytes.{AreBytes};
ghost use Rattle.msf_superblock.specs.BlockNumber.{IsBlockSize};
ghost use Rattle.pdb_info.specs.Settings.{SettingsView, AreSettings, RecordsFit, record_limit, room_for_records};

use msf_blocks::BlockSize;
use std::marker::Model;
use uuid::Uuid;

/// The most bytes that the records of a written file may have together.
const MOST_BYTES: u32 = 1_073_741_824;

/// The settings of a file that is written: its GUID, its age, how many bytes its records may have
/// together, and how many bytes a block has.
#[derive(Clone, Copy, Debug)]
pub struct Settings {
    guid: Uuid,
    age: u32,
    limit: u32,
    block_size: BlockSize,
}

impl Model for Settings {
    ghost use Rattle.pdb_info.specs.Settings.{SettingsView, AreSettings};

    ghost Value = { SettingsView };

    ghost view = { λ s.
        record { guid = s.guid; age = s.age; limit = s.limit; block_size = s.block_size } };

    ghost invariant = { λ s.
        AreSettings
        (record { guid = s.guid; age = s.age; limit = s.limit; block_size = s.block_size }) };

    ghost inverse = { λ s.
        record { guid = s.guid; age = s.age; limit = s.limit; block_size = s.block_size } };
}

/// The numbers of a byte slice are below 256.
fn are_bytes(bytes: &[u8])
    ensures { AreBytes bytes.now }
{}

/// How many bytes of records a file with blocks of this size can have, so that the block map can
/// list the blocks of its directory.
fn room_for_records(block_size: BlockSize) -> u64
    ensures { result ≡ room_for_records block_size }
{
    let size = u64::from(block_size.bytes());
    // One block lists the blocks of the directory. The directory has a number for each block of
    // records, and seven other numbers. The header of the records has 56 bytes.
    (size * size / 16 - 7) * size - 56
}

impl Settings {
    /// Settings with these values. `None` where `limit` is more than 1,073,741,824 bytes, or where
    /// `block_size` is not one of the seven sizes.
    ///
    /// `limit` and `block_size` are in bytes. This does not allocate.
    #[tactic(auto, using(msf_superblock::proofs::SizeLaws::size_decides))]
    pub fn new(guid: Uuid, age: u32, limit: u32, block_size: u32) -> Option<Settings>
        ensures value { IfSome result (λ s.
            s ≡ record { guid = guid; age = age; limit = limit; block_size = block_size }) }
        ensures some { IsSome result ↔ ((limit ≤ 1073741824) × IsBlockSize block_size) }
    {
        let block_size = BlockSize::new(block_size)?;
        if limit > MOST_BYTES {
            return None;
        }
        // This call tells the proof that a GUID has 16 bytes.
        are_bytes(&guid.into_bytes());
        Some(Settings {
            guid,
            age,
            limit,
            block_size,
        })
    }

    /// The GUID of the file.
    pub fn guid(&self) -> Uuid
        ensures value { result ≡ self.now.guid }
        ensures settings { AreSettings self.now }
    {
        self.guid
    }

    /// The age of the file: how many times it was written.
    pub fn age(&self) -> u32
        ensures { result ≡ self.now.age }
    {
        self.age
    }

    /// The limit that was set: the most bytes that the records of the file may have together.
    pub fn limit(&self) -> u32
        ensures value { result ≡ self.now.limit }
        ensures fits { result ≤ 1073741824 }
    {
        self.limit
    }

    /// How many bytes a block of the file has.
    pub fn block_size(&self) -> u32
        ensures value { result ≡ self.now.block_size }
        ensures settings { AreSettings self.now }
    {
        self.block_size.bytes()
    }

    /// The most bytes that the records of the file may have together: the limit that was set, or
    /// the number of bytes that fit in the file, if that is less.
    ///
    /// One block lists the blocks of the stream directory, so fewer records fit with small blocks:
    /// 8,384,968 bytes with blocks of 512 bytes, 67,101,640 with 1,024 and 536,856,520 with 2,048.
    /// This does not allocate.
    pub fn record_limit(&self) -> u32
        ensures value { result ≡ record_limit self.now }
        ensures fits { RecordsFit self.now }
    {
        u64::from(self.limit).min(room_for_records(self.block_size)) as u32
    }
}
