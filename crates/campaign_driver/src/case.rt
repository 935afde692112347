//! A case: the files of a merge, and its settings.

use pdb_info::Settings;
use uuid::Uuid;

/// The GUID of each file that is written. `tests/campaign` gives the same to `pdbmerge`.
const GUID: u128 = 0x0011_2233_4455_6677_8899_aabb_ccdd_eeff;

/// The age of each file that is written.
const AGE: u32 = 1;

/// The most files that a case has.
const MOST_FILES: u32 = 16;

/// The bytes that are still to be read.
#[derive(Drop)]
pub struct Cursor<'a> {
    rest: &'a [u8],
}

impl<'a> Cursor<'a> {
    /// At the first of these bytes.
    pub fn new(bytes: &'a [u8]) -> Cursor<'a> {
        Cursor { rest: bytes }
    }

    /// Whether all bytes were read.
    pub fn is_at_end(&self) -> bool {
        self.rest.is_empty()
    }

    /// The next bytes, as many as this. `None` where there are not so many.
    fn bytes(&mut self, length: usize) -> Option<&'a [u8]> {
        let rest = self.rest;
        if rest.len() < length {
            return None;
        }
        self.rest = &rest[length..];
        Some(&rest[..length])
    }

    /// The next number.
    fn number(&mut self) -> Option<u32> {
        match self.bytes(4)? {
            [a, b, c, d] => Some(u32::from_le_bytes([*a, *b, *c, *d])),
            _ => None,
        }
    }
}

/// The head of a case.
#[derive(Drop)]
pub struct Head {
    /// How many files follow.
    pub count: u32,
    /// The settings of the merges.
    pub settings: Settings,
    /// How many files the first part of the list has.
    pub cut: u32,
}

/// Reads the head of a case. `None` where there is none.
pub fn read_head(cursor: &mut Cursor<'_>) -> Option<Head> {
    let count = cursor.number()?;
    let limit = cursor.number()?;
    let block_size = cursor.number()?;
    let cut = cursor.number()?;
    if count == 0 || MOST_FILES < count || count < cut {
        return None;
    }
    match Settings::new(Uuid::from_u128(GUID), AGE, limit, block_size) {
        Some(settings) => Some(Head {
            count,
            settings,
            cut,
        }),
        None => None,
    }
}

/// Reads as many files as `count` says.
pub fn read_files<'a>(
    cursor: &mut Cursor<'a>,
    count: u32,
    files: &mut Vec<&'a [u8]>,
) -> Option<()> {
    for _ in 0..count {
        let length = cursor.number()?;
        let file = cursor.bytes(length as usize)?;
        files.push(file).ok()?;
    }
    Some(())
}
