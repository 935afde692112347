//! Lists of paths, which stand for arguments.

ghost use Rattle.std.specs.Prelude.{◌≡◌, ◌++◌, ◌<◌, [], ◌∷◌, ℕ, List, length, map, OnOk, string_bytes};
ghost use Rattle.std.specs.Str.{IsUtf8};
ghost use Rattle.command_line.specs.declared.list.ListFault.TheVariants.{Memory};
ghost use Rattle.command_line.specs.List.{BeginsWithLine, AreLines, HasOddLine};

use memchr::memchr;
use std::alloc::{AllocError, AllocFailed, Global};
use std::str::from_utf8;

/// Why a list of paths is refused.
#[derive(Clone, Copy, Debug, PartialEq, Eq)]
pub enum ListFault {
    /// A path is not UTF-8.
    NotUtf8,
    /// Out of memory.
    Memory,
}

impl From<AllocError> for ListFault {
    ghost from_gives = { λ _ fault. fault ≡ Memory };

    fn from(_error: AllocError) -> ListFault {
        ListFault::Memory
    }
}

impl<T: Drop> From<AllocFailed<T>> for ListFault {
    ghost from_gives = { λ _ fault. fault ≡ Memory };

    fn from(_error: AllocFailed<T>) -> ListFault {
        ListFault::Memory
    }
}

/// The first line of a text, without its end, and the text after it.
fn split_line(text: &[u8], end: u8) -> (&[u8], &[u8])
    requires { 0 < length text.now }
    ensures line { BeginsWithLine end text.now result.0.now result.1.now }
    ensures less { length result.1.now < length text.now }
{
    match memchr(end, text) {
        Some(at) => (&text[..at], &text[at + 1..]),
        None => (text, &[]),
    }
}

/// Appends a path.
fn push_path(alloc: Global, path: &[u8], paths: &mut Vec<String>) -> Result<(), ListFault>
    ensures value { OnOk result
        (map string_bytes paths.new.items ≡ map string_bytes paths.old.items ++ path.now ∷ []) }
    ensures odd { result ≡ Err ListFault.NotUtf8 → IsUtf8 path.now → ⊥ }
{
    let path = from_utf8(path).map_err(|_| ListFault::NotUtf8)?;
    paths.push(String::from_str(alloc, path)?)?;
    Ok(())
}

/// Appends the paths of a list. Each path ends with the byte `end`, which the last one may lack.
///
/// The faults: `NotUtf8` for a path that is not UTF-8, and `Memory`. Nothing is said of the paths
/// then.
pub fn push_paths(
    alloc: Global,
    list: &[u8],
    end: u8,
    paths: &mut Vec<String>,
) -> Result<(), ListFault>
    ensures value { OnOk result
        ((lines : List (List ℕ))
        × AreLines end list.now lines
        × (map string_bytes paths.new.items ≡ map string_bytes paths.old.items ++ lines)) }
    ensures odd { result ≡ Err ListFault.NotUtf8 → HasOddLine end list.now }
{
    let mut left = list;
    while !left.is_empty() {
        let (path, others) = split_line(left, end);
        push_path(alloc, path, paths)?;
        left = others;
    }
    Ok(())
}
