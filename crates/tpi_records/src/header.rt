//! The header of a TPI stream: reads one, and writes one.

ghost use Rattle.std.specs.Prelude.{◌≡◌, ◌≢◌, ◌+◌, ◌<◌, ◌^◌, IsOk, IfOk, IfErr};
ghost use Rattle.byte_fields.specs.Check.{Makes};
ghost use Rattle.tpi_records.specs.Header.{Header, HasTpiHeader, header_checks};
ghost use Rattle.tpi_records.specs.Written.{header_bytes, HeadsRecords};

use crate::fault::TpiFault;
use byte_fields::u32_at;
use std::marker::Model;

/// The length of a header, in bytes.
pub(crate) const LENGTH: usize = 56;

// The offsets of the fields, in bytes from the front of the stream.
const VERSION: usize = 0;

const HEADER_SIZE: usize = 4;

const TYPE_INDEX_BEGIN: usize = 8;

const TYPE_INDEX_END: usize = 12;

const TYPE_RECORD_BYTES: usize = 16;

const HASH_STREAM: usize = 20;

const HASH_KEY_SIZE: usize = 24;

const NUM_HASH_BUCKETS: usize = 28;

const HASH_VALUE_BUFFER: usize = 32;

/// The version V80, which current compilers write.
const V80: u32 = 20040203;

/// The number of the stream with the type records, in every container that has one.
pub const TPI_STREAM: u32 = 2;

/// The type index of the first record. The type indices below it are simple types.
pub const FIRST_INDEX: u32 = 0x1000;

/// How many bytes a hash value has.
const HASH_KEY_BYTES: u32 = 4;

/// How many hash buckets there are.
const HASH_BUCKETS: u32 = 0x3FFFF;

/// What the header of a TPI stream says of the records: how many there are, and their length in
/// bytes.
///
/// Made by [`TpiHeader::read`]. ("The PDB TPI and IPI Streams", "Stream Header".)
#[derive(Clone, Copy, Debug)]
pub struct TpiHeader {
    count: u32,
    record_bytes: u32,
}

impl Model for TpiHeader {
    ghost use Rattle.tpi_records.specs.Header.{Header};

    ghost Value = { Header };

    ghost view = { λ h. record { count = h.count; record_bytes = h.record_bytes } };

    ghost inverse = { λ h. record { count = h.count; record_bytes = h.record_bytes } };
}

impl TpiHeader {
    /// Reads the header at the front of a TPI stream.
    ///
    /// The faults, in the order in which they are checked:
    ///
    /// 1. `Short`: the stream has fewer than 56 bytes.
    /// 2. `Version`: the version is not 20040203.
    /// 3. `HeaderSize`: the length of the header is not 56.
    /// 4. `Begin`: the first type index is not 0x1000.
    /// 5. `End`: the type index after the last record is below 0x1000.
    /// 6. `Bytes`: the records pass the end of the stream.
    ///
    /// The records themselves are not read. This does not allocate.
    /// ("The PDB TPI and IPI Streams", "Stream Header".)
    #[tactic(auto, unfolding(crate::specs::Header::header_checks))]
    pub fn read(stream: &[u8]) -> Result<TpiHeader, TpiFault>
        ensures value { IfOk result (HasTpiHeader stream.now) }
        // A stream that has a header is never refused.
        ensures found { (header : Header) → HasTpiHeader stream.now header → IsOk result }
        ensures first { Makes result (header_checks stream.now) }
        ensures checked { IfErr result (λ fault. fault ≢ TpiFault.Memory) }
    {
        if stream.len() < LENGTH {
            return Err(TpiFault::Short);
        }
        let version = u32_at(stream, VERSION);
        if version != V80 {
            return Err(TpiFault::Version(version));
        }
        let header_size = u32_at(stream, HEADER_SIZE);
        if header_size != LENGTH as u32 {
            return Err(TpiFault::HeaderSize(header_size));
        }
        let begin = u32_at(stream, TYPE_INDEX_BEGIN);
        if begin != FIRST_INDEX {
            return Err(TpiFault::Begin(begin));
        }
        let end = u32_at(stream, TYPE_INDEX_END);
        if end < FIRST_INDEX {
            return Err(TpiFault::End(end));
        }
        let record_bytes = u32_at(stream, TYPE_RECORD_BYTES);
        let need = u64::from(record_bytes);
        let have = (stream.len() - LENGTH) as u64;
        if have < need {
            return Err(TpiFault::Bytes { need, have });
        }
        Ok(TpiHeader {
            count: end - FIRST_INDEX,
            record_bytes,
        })
    }

    /// How many records the header announces.
    pub fn count(&self) -> u32
        ensures { result ≡ self.now.count }
    {
        self.count
    }

    /// How many bytes the records have together, by the header.
    pub fn record_bytes(&self) -> u32
        ensures { result ≡ self.now.record_bytes }
    {
        self.record_bytes
    }
}

/// Makes the header, field by field.
#[tactic(auto, unfolding(crate::specs::Written::header_bytes, byte_fields::specs::Number::four_bytes))]
fn header_of(count: u32, bytes: u32) -> [u8; LENGTH]
    requires { FIRST_INDEX + count < 2 ^ 32 }
    ensures { result ≡ header_bytes count bytes }
{
    let end = FIRST_INDEX + count;
    let mut header = [0; LENGTH];
    header[VERSION..HEADER_SIZE].copy_from_slice(&V80.to_le_bytes());
    header[HEADER_SIZE..TYPE_INDEX_BEGIN].copy_from_slice(&(LENGTH as u32).to_le_bytes());
    header[TYPE_INDEX_BEGIN..TYPE_INDEX_END].copy_from_slice(&FIRST_INDEX.to_le_bytes());
    header[TYPE_INDEX_END..TYPE_RECORD_BYTES].copy_from_slice(&end.to_le_bytes());
    header[TYPE_RECORD_BYTES..HASH_STREAM].copy_from_slice(&bytes.to_le_bytes());
    // Two stream numbers of two bytes each: there is no hash stream and no auxiliary hash stream.
    header[HASH_STREAM..HASH_KEY_SIZE].copy_from_slice(&u32::MAX.to_le_bytes());
    header[HASH_KEY_SIZE..NUM_HASH_BUCKETS].copy_from_slice(&HASH_KEY_BYTES.to_le_bytes());
    header[NUM_HASH_BUCKETS..HASH_VALUE_BUFFER].copy_from_slice(&HASH_BUCKETS.to_le_bytes());
    header
}

/// The header of a TPI stream with `count` records, which have `bytes` bytes together.
///
/// The version is 20040203, the header has 56 bytes, the type indices begin at 0x1000, and there is
/// no hash stream. A stream of this header and `count` records after it reads back as these
/// records. This does not allocate. ("The PDB TPI and IPI Streams", "Stream Header".)
pub fn tpi_header_bytes(count: u32, bytes: u32) -> [u8; 56]
    requires { FIRST_INDEX + count < 2 ^ 32 }
    ensures value { result ≡ header_bytes count bytes }
    ensures read_back { HeadsRecords result count bytes }
{
    header_of(count, bytes)
}
