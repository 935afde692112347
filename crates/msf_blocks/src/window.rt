//! The numbers of a directory that is not in memory, through windows on the stack.

ghost use Rattle.std.specs.Prelude.{◌≡◌, ◌+◌, ◌-◌, ◌*◌, ◌<◌, ◌≤◌, true, length, take, drop, IfSome};
ghost use Rattle.byte_fields.specs.Number.{number_at, four_bytes};
ghost use Rattle.byte_io.specs.At.{IfKnown, ReadsOrNone};
ghost use Rattle.msf_blocks.specs.Directory.{IsDirectoryNumber, IsNumberGiven, IsReadable, directory_blocks, map_number, map_start};
ghost use Rattle.msf_superblock.specs.Superblock.{HoldsBlocks};
ghost use Rattle.msf_blocks.specs.Window.{IsWindow, Shows, shown};

use byte_fields::u32_at;
use byte_io::ReadAt;
use msf_superblock::Superblock;

/// How many numbers a window has. Two windows and their heads have 4 KB.
const WINDOW: usize = 510;

/// Reads a number of four bytes. `None` where the read fails.
fn read_number<R: ReadAt>(input: &mut R, offset: u64) -> Option<u32>
    requires inside { IfKnown (R.bytes input.old) (λ file. offset + 4 ≤ length file) }
    ensures reads { ReadsOrNone R.bytes R.is_broken input.old input.new result }
    ensures value { IfSome result (λ n.
        IfKnown (R.bytes input.old) (λ file. n ≡ number_at 4 file offset)) }
    ensures given { IfSome result (IsNumberGiven (R.bytes input.old) offset) }
{
    let mut bytes = [0u8; 4];
    input.read_at(offset, &mut bytes)?;
    Some(u32_at(&bytes, 0))
}

/// The number at a position of the block map.
#[tactic(auto, unfolding(crate::specs::Directory::map_number))]
pub fn read_map_number<R: ReadAt>(
    input: &mut R,
    superblock: &Superblock,
    position: u32,
) -> Option<u32>
    requires whole { IfKnown (R.bytes input.old) (λ file. HoldsBlocks file superblock.now) }
    requires below { position < directory_blocks superblock.now }
    ensures reads { ReadsOrNone R.bytes R.is_broken input.old input.new result }
    ensures value { IfSome result (λ n.
        IfKnown (R.bytes input.old) (λ file. n ≡ map_number file superblock.now position)) }
    ensures given { IfSome result
        (IsNumberGiven (R.bytes input.old) (map_start superblock.now + 4 * position)) }
{
    let start = u64::from(superblock.block_map_addr()) * u64::from(superblock.block_size());
    read_number(input, start + 4 * u64::from(position))
}

/// The number at a position of these bytes.
fn number_in(bytes: &[u8], position: u32) -> u32
    requires { 4 * position + 4 ≤ length bytes.now }
    ensures { four_bytes result ≡ take 4 (drop (4 * position) bytes.now) }
{
    u32_at(bytes, 4 * position as usize)
}

/// Numbers of the directory that were read at once. They lie in one of its blocks.
#[derive(Drop)]
pub struct Window {
    // the position in the directory of the first of them
    first: u32,
    // how many of them were read
    count: u32,
    bytes: [u8; 4 * WINDOW],
}

impl Window {
    /// A window that shows nothing.
    pub fn shut() -> Window
        ensures { result.count ≡ 0 }
    {
        Window {
            first: 0,
            count: 0,
            bytes: [0; 4 * WINDOW],
        }
    }

    /// Whether the window shows the number at a position of the directory.
    fn shows(&self, position: u32) -> bool
        ensures { result ≡ true → Shows self.now position }
    {
        self.first <= position && position - self.first < self.count
    }

    /// The number at a position of the directory.
    fn number(&self, position: u32) -> u32
        requires short { self.now.count ≤ 510 }
        requires shows { Shows self.now position }
        ensures bytes { four_bytes result
            ≡ take 4 (drop (4 * (position - self.now.first)) (shown self.now)) }
        ensures whole { length (shown self.now) ≡ 4 * self.now.count }
    {
        number_in(
            &self.bytes[..4 * self.count as usize],
            position - self.first,
        )
    }

    /// Reads the numbers from a position of the directory on: as many as its block has, and the
    /// window takes. If a read fails, the window shows nothing.
    fn open<R: ReadAt>(
        &mut self,
        input: &mut R,
        superblock: &Superblock,
        position: u32,
    ) -> Option<()>
        requires readable { IfKnown (R.bytes input.old) (λ file. IsReadable file superblock.now) }
        requires there { 4 * position + 4 ≤ superblock.now.directory_bytes }
        ensures reads { ReadsOrNone R.bytes R.is_broken input.old input.new result }
        ensures window { IsWindow (R.bytes input.old) superblock.now self.new }
        ensures shows { IfSome result (λ _. Shows self.new position) }
    {
        self.count = 0;
        let block_size = superblock.block_size();
        let offset = 4 * position;
        let block = read_map_number(input, superblock, offset / block_size)?;
        let within = offset % block_size;
        let count = ((block_size - within) / 4).min(WINDOW as u32);
        let start = u64::from(block) * u64::from(block_size) + u64::from(within);
        input.read_at(start, &mut self.bytes[..4 * count as usize])?;
        self.first = position;
        self.count = count;
        Some(())
    }
}

/// The number at a position of the directory.
pub fn read_directory_number<R: ReadAt>(
    input: &mut R,
    superblock: &Superblock,
    window: &mut Window,
    position: u32,
) -> Option<u32>
    requires readable { IfKnown (R.bytes input.old) (λ file. IsReadable file superblock.now) }
    requires window { IsWindow (R.bytes input.old) superblock.now window.old }
    requires there { 4 * position + 4 ≤ superblock.now.directory_bytes }
    ensures reads { ReadsOrNone R.bytes R.is_broken input.old input.new result }
    ensures window { IsWindow (R.bytes input.old) superblock.now window.new }
    ensures given { IfSome result (IsDirectoryNumber (R.bytes input.old) superblock.now position) }
{
    if !window.shows(position) {
        window.open(input, superblock, position)?;
    }
    Some(window.number(position))
}
