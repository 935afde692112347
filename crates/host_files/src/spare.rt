//! The temporary file of a merge, until it takes the place of OUT.

ghost use Rattle.std.specs.Prelude.{◌≡◌, ◌↔◌, true};
ghost use Rattle.std.specs.Fs.{asks_create_new};

use std::alloc::{AllocError, Global};
use std::fs::{self, File, Metadata, OpenFile, OpenOptions, Permissions};
use std::io::{self, Error, ErrorKind};
use std::os::fd::{AsFd, AsRawFd};
use std::os::unix::fs::{FileExt, MetadataExt, OpenOptionsExt, PermissionsExt, fchown};
use std::random::RandomSource;
use std::rt::Files;

/// How many names are tried. A name that is taken was guessed, or the system gives no random bytes.
const NAMES: u32 = 100;

/// The numbers of two errors of the system: "Device or resource busy" and "Is a directory".
const BUSY: i32 = 16;

const IS_FOLDER: i32 = 21;

/// How many bytes of two files are compared at a time.
const CHUNK: usize = 4096;

/// How a file took its place.
#[derive(Clone, Copy, Debug, PartialEq, Eq)]
pub enum Placed {
    /// It is there after a loss of power, too.
    Stored,
    /// The system could not store its folder. A loss of power may bring back what was there.
    Unstored,
}

impl Placed {
    /// How two files took their places.
    pub fn with(self, other: Placed) -> Placed
        ensures { result ≡ Placed.Stored ↔ ((self ≡ Placed.Stored) × (other ≡ Placed.Stored)) }
    {
        match (self, other) {
            (Placed::Stored, Placed::Stored) => Placed::Stored,
            (Placed::Unstored, _) | (_, Placed::Unstored) => Placed::Unstored,
        }
    }
}

/// What a new file has of the owner and the group of an old one.
#[derive(Clone, Copy)]
enum Kept {
    Both,
    Group,
    Neither,
}

/// The path of a file until it is whole, the one that it has then, and what stood there.
#[derive(Debug, Drop)]
pub struct Spare {
    path: String,
    target: String,
    old: Option<Metadata>,
}

// Each name that the system is told has 4 KB of the stack, so these functions have frames of their own.

/// What is at a path: a regular file, or nothing. All else is refused, and so is a link to nothing.
#[inline(never)]
fn old_file<R: Files>(rt: &R, path: &str) -> io::Result<Option<Metadata>> {
    match fs::metadata(rt, path) {
        Ok(found) if found.is_file() => Ok(Some(found)),
        Ok(found) if found.is_dir() => Err(Error::from_raw_os_error(IS_FOLDER)),
        Ok(_) => Err(Error::new(ErrorKind::Unsupported, "it is no regular file")),
        Err(error) if error.kind() == ErrorKind::NotFound => {
            match fs::symlink_metadata(rt, path) {
                Ok(_) => Err(error),
                Err(_) => Ok(None),
            }
        }
        Err(error) => Err(error),
    }
}

/// Whether a symbolic link is at a path.
#[inline(never)]
fn is_link<R: Files>(rt: &R, path: &str) -> bool {
    fs::symlink_metadata(rt, path).map_or(false, |found| found.is_symlink())
}

/// The path of the file that is replaced: where a symbolic link leads to one, that of the file.
#[inline(never)]
fn target_of<R: Files + AllocGlobal>(rt: &R, path: &str) -> io::Result<String> {
    if is_link(rt, path) {
        return Ok(fs::canonicalize(rt, path)?.into_string());
    }
    match String::from_str(rt.alloc(), path) {
        Ok(path) => Ok(path),
        Err(_) => Err(Error::from(ErrorKind::OutOfMemory)),
    }
}

/// The folder of a path, with the slash at its end.
fn folder_of(path: &str) -> &str {
    match path.rfind('/') {
        Some(at) => &path[..at + 1],
        None => "./",
    }
}

/// The number of the mount that a path leads to. `None` where the system does not tell it.
#[inline(never)]
fn mount_of<R: Files + AllocGlobal>(rt: &R, path: &str) -> Option<u32>
where
    R::File: AsRawFd,
{
    let file = File::open(rt, path).ok()?;
    let number = file.as_raw_fd();
    let name = format!(in rt.alloc(); "/proc/self/fdinfo/{number}").ok()?;
    let text = fs::read_to_string(rt, name.as_str()).ok()?;
    for line in text.as_str().lines() {
        if let Some(number) = line.strip_prefix("mnt_id:") {
            return number.trim().parse().ok();
        }
    }
    None
}

/// Whether a file is a mount point, whose place no other file can take.
fn is_mounted<R: Files + AllocGlobal>(rt: &R, path: &str) -> bool
where
    R::File: AsRawFd,
{
    match (mount_of(rt, path), mount_of(rt, folder_of(path))) {
        (Some(file), Some(folder)) => file != folder,
        (None, _) | (_, None) => false,
    }
}

/// The number of this process. 0 where the system does not tell it.
#[inline(never)]
fn process_number<R: Files + AllocGlobal>(rt: &R) -> u32 {
    match fs::read_link(rt, "/proc/self") {
        Ok(name) => name.into_string().as_str().parse().unwrap_or(0),
        Err(_) => 0,
    }
}

/// A number that nobody can foresee. Where the system gives no random bytes, that of the process and
/// of the try.
fn any_number<R: Files + AllocGlobal + RandomSource>(rt: &R, number: u32) -> u64 {
    let mut bytes = [0u8; 8];
    match rt.fill_bytes(&mut bytes) {
        Ok(()) => u64::from_le_bytes(bytes),
        Err(_) => u64::from(process_number(rt)) << 32 | u64::from(number),
    }
}

/// A name in the folder of a path.
fn name_beside(alloc: Global, path: &str, number: u64) -> Result<String, AllocError> {
    let folder = folder_of(path);
    format!(in alloc; "{folder}.pdbmerge-{number:016x}")
}

/// How the temporary file of a merge is opened: it is not there yet, and no link is followed. `mode`
/// are its rights at the most.
pub fn temporary_file(mode: u32) -> OpenOptions
    ensures { asks_create_new result ≡ true }
{
    let mut options = OpenOptions::new();
    options.mode(mode);
    options.read(true).write(true).create_new(true);
    options
}

/// Creates a file in the folder of a path, under a name that no file has.
#[inline(never)]
fn create_beside<R: Files + AllocGlobal + RandomSource>(
    rt: &R,
    path: &str,
    mode: u32,
) -> io::Result<(String, R::File)> {
    for number in 0..NAMES {
        let Ok(name) = name_beside(rt.alloc(), path, any_number(rt, number)) else {
            return Err(Error::from(ErrorKind::OutOfMemory));
        };
        match temporary_file(mode).open(rt, name.as_str()) {
            Ok(file) => return Ok((name, file)),
            Err(error) if error.kind() == ErrorKind::AlreadyExists => {}
            Err(error) => return Err(error),
        }
    }
    Err(Error::from(ErrorKind::AlreadyExists))
}

/// Gives an open file the owner and the group of an old one, or the group alone.
fn keep_owner<F: AsFd>(file: &F, old: &Metadata) -> Kept {
    if fchown(file.as_fd(), Some(old.uid()), Some(old.gid())).is_ok() {
        Kept::Both
    } else if fchown(file.as_fd(), None, Some(old.gid())).is_ok() {
        Kept::Group
    } else {
        Kept::Neither
    }
}

/// The rights of an old file, for a new one. Where the owner is not kept, it does not run as that of
/// the old one did; where the group is not kept, its own group gets no rights that others don't have.
fn rights_of(mode: u32, kept: Kept) -> u32 {
    match kept {
        Kept::Both => mode & 0o7777,
        Kept::Group => mode & 0o3777,
        Kept::Neither => (mode & 0o1707) | (mode & 0o070 & (mode << 3)),
    }
}

/// Whether two files have the same bytes, up to this many.
#[inline(never)]
fn have_same_bytes<F: FileExt>(one: &F, other: &F, length: u64) -> bool {
    let (mut first, mut second) = ([0u8; CHUNK], [0u8; CHUNK]);
    for chunk in 0..=length / CHUNK as u64 {
        let at = chunk.saturating_mul(CHUNK as u64);
        let count = length.saturating_sub(at).min(CHUNK as u64) as usize;
        let (first, second) = (&mut first[..count], &mut second[..count]);
        let is_read = one.read_exact_at(first, at).is_ok()
            && other.read_exact_at(second, at).is_ok();
        if !is_read || &*first != &*second {
            return false;
        }
    }
    true
}

impl Spare {
    /// Creates a file that is to take the place of what is at a path: a regular file, or nothing. In
    /// the place of a file only its owner may read it, until it gets the rights of the old one.
    #[inline(never)]
    pub fn create<R: Files + AllocGlobal + RandomSource>(
        rt: &R,
        path: &str,
    ) -> io::Result<(Spare, R::File)>
    where
        R::File: AsRawFd,
    {
        let old = old_file(rt, path)?;
        let target = target_of(rt, path)?;
        if old.is_some() && is_mounted(rt, target.as_str()) {
            return Err(Error::from_raw_os_error(BUSY));
        }
        let mode = if old.is_some() { 0o600 } else { 0o666 };
        let (path, file) = create_beside(rt, target.as_str(), mode)?;
        Ok((Spare { path, target, old }, file))
    }

    /// Whether the file whose place is taken has the bytes of the new one already.
    fn is_needless<R: Files>(&self, rt: &R, file: &R::File) -> bool
    where
        R::File: FileExt,
    {
        let (Some(old), Ok(new)) = (&self.old, file.metadata()) else {
            return false;
        };
        if old.len() != new.len() {
            return false;
        }
        match File::open(rt, self.target.as_str()) {
            Ok(there) => have_same_bytes(file, &there, new.len()),
            Err(_) => false,
        }
    }

    /// Gives the file the owner and the rights of the one whose place it takes. Only some users may
    /// give files away; where that is refused, the owner is the one who runs the program.
    fn keep_rights<F: OpenFile + AsFd>(&self, file: &F) -> io::Result<()> {
        let Some(old) = &self.old else {
            return Ok(());
        };
        let wanted = rights_of(old.permissions().mode(), keep_owner(file, old));
        if file.metadata()?.permissions().mode() & 0o7777 != wanted {
            file.set_permissions(Permissions::from_mode(wanted))?;
        }
        file.sync_all()
    }

    /// Waits until the system has stored the folder, and so the name of the file.
    #[inline(never)]
    fn store_name<R: Files>(&self, rt: &R) -> Placed {
        let folder = File::open(rt, folder_of(self.target.as_str()));
        match folder.and_then(|folder| folder.sync_all()) {
            Ok(()) => Placed::Stored,
            Err(_) => Placed::Unstored,
        }
    }

    /// Puts the file in its place. Where a file with the same bytes is there, that one stays, and the
    /// new one is removed.
    #[inline(never)]
    pub fn take_place<R: Files>(&self, rt: &R, file: &R::File) -> io::Result<Placed>
    where
        R::File: AsFd + FileExt,
    {
        if self.is_needless(rt, file) {
            self.remove(rt);
            return Ok(Placed::Stored);
        }
        self.keep_rights(file)?;
        fs::rename(rt, self.path.as_str(), self.target.as_str())?;
        Ok(self.store_name(rt))
    }

    /// Removes the file. Where that is refused too, it is left.
    #[inline(never)]
    pub fn remove<R: Files>(&self, rt: &R) {
        let _ = fs::remove_file(rt, self.path.as_str());
    }
}
