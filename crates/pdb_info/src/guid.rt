//! GUIDs, and the order of their bytes in a file.

ghost use Rattle.std.specs.Prelude.{◌≡◌};
ghost use Rattle.pdb_info.specs.Guid.{stored_guid};

use uuid::Uuid;

/// The stored bytes of a GUID.
///
/// The printed form of a GUID has five parts. Each of the first three parts is stored with its
/// lowest byte first. The last eight bytes are stored in the order in which they are printed. This
/// never fails. ("The PDB Info Stream", "Stream Header".)
pub fn guid_bytes(guid: Uuid) -> [u8; 16]
    ensures value { result ≡ stored_guid guid }
    ensures undone { stored_guid result ≡ guid }
{
    // Storing a GUID and reading one exchange the same bytes.
    guid_of(guid.into_bytes()).into_bytes()
}

/// The GUID with these stored bytes: the inverse of [`guid_bytes`].
///
/// This never fails. ("The PDB Info Stream", "Stream Header".)
#[tactic(auto, using(crate::proofs::GuidLaws::stored_is, crate::proofs::GuidLaws::stored_twice))]
pub fn guid_of(bytes: [u8; 16]) -> Uuid
    ensures value { result ≡ stored_guid bytes }
    ensures undone { stored_guid result ≡ bytes }
{
    Uuid::from_bytes_le(bytes)
}
