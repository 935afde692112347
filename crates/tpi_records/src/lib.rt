//! The type records of a TPI stream.
//!
//! A TPI stream is a header of 56 bytes, then the type records one after the other, then bytes that
//! nothing here reads. It is stream 2 of its container ([`TPI_STREAM`]). The header says how many
//! records there are and how many bytes they have together. A record begins with its length: a
//! number of two bytes that does not count itself. The whole record is a multiple of four bytes
//! long.
//!
//! - [`TpiHeader::read`] checks the header and gives what it says of the records.
//! - [`Records::read`] checks the header and the records, and lends the records from the stream.
//!   Each record is lent whole, with its length field.
//! - [`first_record`] lends the record at the front of some bytes.
//! - [`tpi_header_bytes`] makes the header of a stream that is written.
//! - [`TpiFault`] says which check a stream fails first.
//!
//! Type indices number the records: the first record has the index 0x1000, the second 0x1001, and
//! so on. A *position* is a record's place in the list, from 0. A *start* is the offset at which a
//! record begins, in bytes from the front of the first record.
//!
//! Records are read in one pass, which makes every check and keeps the start of every 64th record.
//! The list of starts grows as records are found, and never by what the header announces. Where
//! there is no memory for it, the pass goes on without it, so that a fault of the stream still comes
//! before `Memory`. The list takes four bytes for 64 records, and looking up one record steps over at
//! most 63. [`Records::iter`] and [`Cursor`] go from record to record in one step. A [`RecordIndex`]
//! keeps every start, for those who look records up out of order.
//!
//! What is proved: a stream that is read *has* these records (`HasRecords` of `specs/Records`), and
//! it has no others (`one_records` of `proofs/StreamLaws`). A stream that has records is refused
//! only when out of memory. A fault names the first check that fails, or `Memory` where no check
//! fails. A stream that begins with a written header has the records that follow it.
//! ("The PDB TPI and IPI Streams".)
//!
//! # Example
//!
//! `tpi_records` cuts a stream into records. This is a test of the crate `test_examples`:
//!
//! ```
//! fn the_records_of_a_stream(rt: HostRuntime) -> Result<(), Fail> {
//!     let mut stream = Vec::new(rt.alloc());
//!     stream.extend_from_slice(&tpi_header_bytes(1, 12))?;
//!     stream.extend_from_slice(TO_INT)?;
//!     let records = Records::read(rt.alloc(), &stream)?;
//!     assert_eq!(rt; records.len(), 1);
//!     for record in &records {
//!         assert_eq!(rt; record, TO_INT);
//!     }
//!     Ok(())
//! }
//! ```
#![tactic(auto)]

mod cursor;
mod fault;
mod framing;
mod header;
mod index;
mod iter;
mod records;

pub use cursor::Cursor;
pub use fault::TpiFault;
pub use framing::{first_record, framed_bytes};
pub use header::{FIRST_INDEX, TPI_STREAM, TpiHeader, tpi_header_bytes};
pub use index::RecordIndex;
pub use iter::Iter;
pub use records::Records;
