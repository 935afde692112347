//! Whether two paths name one file.

use std::alloc::AllocError;
use std::fs;
use std::os::unix::fs::MetadataExt;
use std::rt::Files;

/// What tells one file from another: its path, and where there is such a file, its device and its
/// number there.
#[derive(Debug, Drop)]
pub struct FileId<'a> {
    path: &'a str,
    number: Option<(u64, u64)>,
}

/// The device of a file and its number there. `None` where there is no such file.
fn number_of<R: Files>(rt: &R, path: &str) -> Option<(u64, u64)> {
    match fs::metadata(rt, path) {
        Ok(file) => Some((file.dev(), file.ino())),
        Err(_) => None,
    }
}

impl<'a> FileId<'a> {
    /// The file with this path, which need not be there.
    pub fn of<R: Files>(rt: &R, path: &'a str) -> FileId<'a> {
        FileId {
            path,
            number: number_of(rt, path),
        }
    }

    /// Whether another path names this file.
    pub fn is<R: Files>(&self, rt: &R, other: &str) -> bool {
        self.path == other || (self.number.is_some() && self.number == number_of(rt, other))
    }
}

/// Whether one of these paths names a file.
pub fn is_one_of<R: Files>(rt: &R, file: &FileId<'_>, paths: &[String]) -> bool {
    for path in paths {
        if file.is(rt, path.as_str()) {
            return true;
        }
    }
    false
}

/// Which of these paths name a file.
pub fn are_file<R: Files + AllocGlobal>(
    rt: &R,
    file: &FileId<'_>,
    paths: &[String],
) -> Result<Vec<bool>, AllocError> {
    let mut are = Vec::with_capacity(rt.alloc(), paths.len())?;
    for path in paths {
        are.push(file.is(rt, path.as_str()))?;
    }
    Ok(are)
}
