//! Bytes that are printed as themselves within quotes.

ghost use Rattle.std.specs.Prelude.{◌≡◌, ◌≤◌, IsTrue, length, take};
ghost use Rattle.output_words.specs.Text.{is_plain};
ghost use Rattle.output_words.specs.Bounded.{ArePlain};

use byte_fields::rest_from;

/// Whether a byte is printed as itself within quotes.
#[tactic(auto, unfolding(crate::specs::Text::is_plain))]
pub fn is_plain(byte: u8) -> bool
    ensures { result ≡ is_plain byte }
{
    (0x20 <= byte) & (byte <= 0x7E) & (byte != b'"') & (byte != b'\\')
}

/// How many bytes are tested at once.
const BLOCK: usize = 16;

/// Whether all bytes of a block are printed as themselves within quotes.
fn is_plain_block(block: &[u8; BLOCK]) -> bool
    ensures { IsTrue result → ArePlain block.now }
{
    let mut plain = true;
    for byte in block {
        plain &= is_plain(*byte);
    }
    plain
}

/// How many bytes at the head are printed as themselves within quotes, by whole blocks.
fn plain_blocks(bytes: &[u8]) -> usize
    ensures inside { result ≤ length bytes.now }
    ensures plain { ArePlain (take result bytes.now) }
{
    let mut count = 0;
    'tested: while let Some(block) = rest_from(bytes, count).first_chunk::<BLOCK>() {
        if !is_plain_block(block) {
            return count;
        }
        count += BLOCK;
    }
    count
}

/// How many bytes at the head are printed as themselves within quotes.
pub fn plain_run(bytes: &[u8]) -> usize
    ensures inside { result ≤ length bytes.now }
    ensures plain { ArePlain (take result bytes.now) }
{
    let blocks = plain_blocks(bytes);
    let mut count = blocks;
    for byte in rest_from(bytes, blocks) {
        if !is_plain(*byte) {
            return count;
        }
        count += 1;
    }
    count
}
