//! The type records of a TPI stream.

ghost use Rattle.std.specs.Prelude.{◌≡◌, ◌⊎◌, ◌↔◌, ◌+◌, ◌*◌, ◌/◌, ◌^◌, ◌<◌, ◌≤◌, IsTrue, option_map, slice_get, length, drop, [], List, ℕ, IfOk, IfErr, IfSome};
ghost use Rattle.std.specs.List.{AllByRecursion, concat};
ghost use Rattle.tpi_records.specs.Records.{IsRecord, IsFramed, IsFirstFault, HasRecords, records_in};

use crate::cursor::Cursor;
use crate::fault::TpiFault;
use crate::framing::{STRIDE, check_records, framed_bytes};
use crate::header::TpiHeader;
use crate::index::{RecordIndex, start_at};
use crate::iter::{Iter, skip, split_first};
use std::alloc::{AllocError, Allocator, Global};
use std::marker::Model;

/// The type records of a TPI stream, lent from it.
///
/// Made by [`Records::read`]. It keeps a reference to the bytes of the records, and the starts of
/// records 0, 64, 128 and so on, each in four bytes. A record between two of them is found by
/// stepping over those before it. Who looks records up out of order keeps a [`RecordIndex`] beside
/// them. ("The PDB TPI and IPI Streams", "Type Records".)
#[derive(Debug, Drop)]
pub struct Records<'a, A: Allocator = Global> {
    bytes: &'a [u8],
    count: u32,
    starts: Vec<u32, A>,
}

impl<'a, A: Allocator> Model for Records<'a, A> {
    ghost use Rattle.std.specs.Prelude.{List, ℕ};
    ghost use Rattle.tpi_records.specs.Records.{AreRecords, records_in};

    ghost Value = { List (List ℕ) };

    ghost view = { λ r. records_in r.bytes.now };

    ghost invariant = { λ r. AreRecords r.bytes.now r.count r.starts.items };
}

impl<'a, A: Allocator + Copy> Records<'a, A> {
    /// Reads the records of a TPI stream.
    ///
    /// The faults, in the order in which they are checked:
    ///
    /// 1. `Short`, `Version`, `HeaderSize`, `Begin`, `End`, `Bytes`: as [`TpiHeader::read`].
    /// 2. For each record in turn, `RecordShort`: the bytes end within its length field.
    ///    `RecordLen`: the length field is below two, or the whole record would not be a multiple
    ///    of four bytes long.
    ///    `RecordShort`: the bytes end within the record.
    /// 3. `RecordCount`: the header announces another number of records.
    /// 4. `Memory`: out of memory for the starts. All checks passed.
    ///
    /// Bytes after the records are ignored. This allocates four bytes for every 64 records, as it
    /// finds them. ("The PDB TPI and IPI Streams", "Type Records".)
    pub fn read(alloc: A, stream: &'a [u8]) -> Result<Records<'a, A>, TpiFault>
        ensures value { IfOk result (HasRecords stream.now) }
        // A stream that has records is refused only when out of memory.
        ensures found { (records : List (List ℕ)) → HasRecords stream.now records →
            IfErr result (λ fault. fault ≡ TpiFault.Memory) }
        // The fault is `Memory` only where the stream has no fault.
        ensures first { IfErr result (λ fault.
            IsFirstFault stream.now fault
            ⊎ ((fault ≡ TpiFault.Memory)
            × ((records : List (List ℕ)) × HasRecords stream.now records))) }
        ensures few { IfOk result (λ records. 4 * length records ≤ length stream.now) }
    {
        let header = TpiHeader::read(stream)?;
        let bytes = framed_bytes(stream, header);
        let count = header.count();
        let mut starts = Vec::new(alloc);
        let kept = check_records(bytes, count, &mut starts)?;
        if !kept {
            return Err(TpiFault::Memory);
        }
        Ok(Records {
            bytes,
            count,
            starts,
        })
    }
}

impl<'a, A: Allocator> Records<'a, A> {
    /// How many records there are.
    pub fn len(&self) -> usize
        ensures value { result ≡ length self.now }
        ensures each { AllByRecursion IsRecord self.now }
        // So the type index of each record fits in a u32.
        ensures few { result < 2 ^ 30 }
        ensures short { length (concat self.now) < 2 ^ 32 }
    {
        self.count as usize
    }

    /// How many bytes the records have together, with their length fields.
    pub fn bytes_len(&self) -> u32
        ensures { result ≡ length (concat self.now) }
    {
        self.bytes.len() as u32
    }

    /// Whether there are no records.
    pub fn is_empty(&self) -> bool
        ensures { IsTrue result ↔ (self.now ≡ []) }
    {
        self.count == 0
    }

    /// The record at this position, from 0: the whole record, with its length field.
    ///
    /// `None` where there is no such record. This steps over at most 63 records and does not
    /// allocate. A [`Cursor`] does not step where positions
    /// come one after the other, and a [`RecordIndex`] never does.
    #[tactic(auto, using(crate::proofs::TableLaws::next_there, crate::proofs::TableLaws::none_there))]
    pub fn get(&self, position: usize) -> Option<&'a [u8]>
        ensures value { option_map (λ r. r.now) result ≡ slice_get self.now position }
        ensures each { IfSome result (λ r. IsRecord r.now) }
    {
        let (record, _) = split_first(self.bytes_from(position))?;
        Some(record)
    }

    /// The records in order. Each one is lent whole, with its length field.
    ///
    /// This does not allocate.
    pub fn iter(&self) -> Iter<'a>
        ensures value { result ≡ self.now }
        ensures each { AllByRecursion IsRecord result }
        ensures few { length result < 2 ^ 30 }
    {
        Iter::over(self.bytes)
    }

    /// The bytes of the records from this position on.
    pub(crate) fn bytes_from(&self, position: usize) -> &'a [u8]
        ensures records { records_in result.now ≡ drop position self.now }
        ensures framed { IsFramed result.now }
    {
        // That of the record at this position, or of one at most 63 before it.
        let Some(start) = start_at(&self.starts, position / STRIDE) else {
            return &[];
        };
        let (_, bytes) = self.bytes.split_at(start);
        skip(bytes, position % STRIDE)
    }

    /// The start of each record, in four bytes, from which these records are looked up without steps.
    pub fn index<B: Allocator>(&self, alloc: B) -> Result<RecordIndex<'a, B>, AllocError>
        ensures { IfOk result (λ index. index ≡ self.now) }
    {
        RecordIndex::over(alloc, self.bytes, self.len())
    }

    /// A cursor, which looks up these records. This does not allocate.
    pub fn cursor(&self) -> Cursor<'_, 'a, A>
        ensures { result ≡ self.now }
    {
        Cursor::over(self, self.bytes)
    }
}

impl<'r, 'a, A: Allocator> IntoIterator for &'r Records<'a, A> {
    type Item = &'a [u8];

    type IntoIter = Iter<'a>;

    ghost into_iter_gives = { λ records iter.
        (iter ≡ records.now) × AllByRecursion IsRecord iter × (length iter < 2 ^ 30) };

    fn into_iter(self) -> Iter<'a> {
        self.iter()
    }
}
