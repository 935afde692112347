//! The header of an info stream: reads one, and writes one.

ghost use Rattle.std.specs.Prelude.{◌≡◌, ◌≢◌, ◌≤◌, [], ◌∷◌, ◌++◌, length, take, drop, IsOk, IfOk, IfErr};
ghost use Rattle.byte_fields.specs.Check.{Makes};
ghost use Rattle.byte_fields.specs.Number.{u32s};
ghost use Rattle.pdb_info.specs.Guid.{stored_guid};
ghost use Rattle.pdb_info.specs.Header.{HeaderFields, HasInfoHeader, info_header_checks};

use crate::fault::InfoFault;
use crate::guid::guid_of;
use byte_fields::u32_at;
use std::marker::Model;
use uuid::Uuid;

/// The length of a header, in bytes.
pub(crate) const HEADER_LENGTH: usize = 28;

// The offsets of the fields, in bytes from the front of the stream.
const VERSION: usize = 0;

const SIGNATURE: usize = 4;

const AGE: usize = 8;

const GUID: usize = 12;

/// The version VC70, which current compilers write.
const VC70: u32 = 20000404;

/// What the header of an info stream says: the version, the signature, the age and the GUID.
///
/// Made by [`InfoHeader::read`]. ("The PDB Info Stream", "Stream Header".)
#[derive(Clone, Copy, Debug)]
pub struct InfoHeader {
    version: u32,
    signature: u32,
    age: u32,
    guid: Uuid,
}

impl Model for InfoHeader {
    ghost use Rattle.pdb_info.specs.Header.{HeaderFields};

    ghost Value = { HeaderFields };

    ghost view = { λ h.
        record { version = h.version; signature = h.signature; age = h.age; guid = h.guid } };

    ghost inverse = { λ h.
        record { version = h.version; signature = h.signature; age = h.age; guid = h.guid } };
}

/// The GUID in the last 16 bytes of the header.
fn guid_at_end(stream: &[u8]) -> Uuid
    requires { HEADER_LENGTH ≤ length stream.now }
    ensures { result ≡ stored_guid (take 16 (drop 12 stream.now)) }
{
    let mut bytes = [0; 16];
    bytes.copy_from_slice(&stream[GUID..HEADER_LENGTH]);
    guid_of(bytes)
}

impl InfoHeader {
    /// Reads the header at the front of an info stream.
    ///
    /// The only fault is `InfoShort`: the stream has fewer than 28 bytes. The values are not
    /// checked. This does not allocate. ("The PDB Info Stream", "Stream Header".)
    #[tactic(auto, unfolding(crate::specs::Header::info_header_checks))]
    pub fn read(stream: &[u8]) -> Result<InfoHeader, InfoFault>
        ensures value { IfOk result (HasInfoHeader stream.now) }
        // A stream that has a header is never refused.
        ensures found { (fields : HeaderFields) → HasInfoHeader stream.now fields → IsOk result }
        ensures first { Makes result (info_header_checks stream.now) }
        ensures checked { IfErr result (λ fault. fault ≢ InfoFault.Memory) }
    {
        if stream.len() < HEADER_LENGTH {
            return Err(InfoFault::InfoShort);
        }
        Ok(InfoHeader {
            version: u32_at(stream, VERSION),
            signature: u32_at(stream, SIGNATURE),
            age: u32_at(stream, AGE),
            guid: guid_at_end(stream),
        })
    }

    /// The version of the format, as a date: 20000404 for VC70.
    pub fn version(&self) -> u32
        ensures { result ≡ self.now.version }
    {
        self.version
    }

    /// The time of writing in seconds since 1970, if the writer stored it.
    pub fn signature(&self) -> u32
        ensures { result ≡ self.now.signature }
    {
        self.signature
    }

    /// The age: how many times the file was written.
    pub fn age(&self) -> u32
        ensures { result ≡ self.now.age }
    {
        self.age
    }

    /// The GUID that the file shares with its program.
    pub fn guid(&self) -> Uuid
        ensures { result ≡ self.now.guid }
    {
        self.guid
    }
}

/// The header of an info stream of version VC70, with the signature 0, this age and this stored
/// GUID.
#[tactic(auto, unfolding(byte_fields::specs::Number::four_bytes))]
pub(crate) fn header_bytes(age: u32, stored: [u8; 16]) -> [u8; HEADER_LENGTH]
    ensures value { result ≡ u32s (20000404 ∷ 0 ∷ age ∷ []) ++ stored }
    ensures long { length stored ≡ 16 }
{
    let mut header = [0; HEADER_LENGTH];
    header[VERSION..SIGNATURE].copy_from_slice(&VC70.to_le_bytes());
    header[AGE..GUID].copy_from_slice(&age.to_le_bytes());
    header[GUID..].copy_from_slice(&stored);
    header
}
