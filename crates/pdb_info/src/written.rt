//! The info stream of a file that is written.

ghost use Rattle.std.specs.Prelude.{◌≡◌, [], ◌∷◌, ◌++◌, length};
ghost use Rattle.byte_fields.specs.Number.{u32s};
ghost use Rattle.pdb_info.specs.Info.{HasInfo};
ghost use Rattle.pdb_info.specs.Written.{info_contents, info_view};

use crate::guid::guid_bytes;
use crate::header::{HEADER_LENGTH, header_bytes};
use crate::settings::Settings;

/// The offset of Capacity in a stream without names: the length of the buffer and Size come
/// between the header and it.
const CAPACITY: usize = HEADER_LENGTH + 8;

/// How many buckets a map without names has.
const BUCKETS: u32 = 8;

/// Makes the stream: the header, and a map without names.
fn stream_of(age: u32, stored: [u8; 16]) -> [u8; 52]
    ensures value { result
        ≡ u32s (20000404 ∷ 0 ∷ age ∷ []) ++ (stored ++ u32s (0 ∷ 0 ∷ 8 ∷ 0 ∷ 0 ∷ 0 ∷ [])) }
    ensures long { length stored ≡ 16 }
{
    let mut stream = [0; 52];
    stream[CAPACITY..CAPACITY + 4].copy_from_slice(&BUCKETS.to_le_bytes());
    stream[..HEADER_LENGTH].copy_from_slice(&header_bytes(age, stored));
    stream
}

/// The info stream of a file that is written with these settings.
///
/// The version is VC70, the signature is 0, and the age and the GUID are those of the settings.
/// There are no named streams and no feature codes. The stream reads back as these values. This
/// does not allocate. ("The PDB Info Stream".)
pub fn info_bytes(settings: &Settings) -> [u8; 52]
    ensures value { result ≡ info_contents settings.now.age settings.now.guid }
    ensures read_back { HasInfo result (info_view settings.now.age settings.now.guid) }
{
    stream_of(settings.age(), guid_bytes(settings.guid()))
}
