//! A sink, which takes bytes.

ghost use Rattle.std.specs.Prelude.{◌≡◌, ◌<◌, ◌≤◌, ℕ, List, Option, Bool, true, false, length, take, OnOk, OnErr};
ghost use Rattle.std.specs.Io.KnownBytes.{Appends};

use crate::fault::NotTaken;
use std::io::Write;

/// Takes bytes. Each call takes some of the first bytes of a slice.
///
/// All writing goes through this trait: into a `Vec` in a test, into a file or standard output in
/// the program. Its calls return no errors. A sink that fails takes nothing and stays broken, and
/// contracts see this. Where the bytes of a writer are not known, they are `None`, and contracts
/// then claim nothing about them.
pub trait Sink {
    /// The bytes that the sink has taken so far, where they are known.
    ghost taken: { Self → Option (List ℕ) };

    /// Whether a write failed.
    ghost is_broken: { Self → Bool };

    /// Takes some of the first bytes, and returns how many. If it takes no bytes of a nonempty
    /// slice, the sink is broken.
    fn put(&mut self, bytes: &[u8]) -> usize
        ensures bound { result ≤ length bytes.now }
        ensures takes { Appends (taken self.old) (taken self.new) (take result bytes.now) }
        ensures refuses { 0 < length bytes.now → result ≡ 0 → is_broken self.new ≡ true }
        ensures whole { 0 < result → is_broken self.new ≡ is_broken self.old }
        ensures stays { is_broken self.old ≡ true → is_broken self.new ≡ true };
}

/// The sink of a writer. Each `put` is one call of `write`. After an error of `write` no bytes were
/// taken.
#[derive(Debug, Drop)]
pub struct Out<W> {
    writer: W,
    broken: bool,
}

impl<W: Write> Sink for Out<W> {
    ghost taken = { λ s. W.contents s.writer };

    ghost is_broken = { λ s. s.broken };

    fn put(&mut self, bytes: &[u8]) -> usize {
        let count = self.writer.write(bytes).unwrap_or(0);
        if count == 0 && !bytes.is_empty() {
            self.broken = true;
        }
        count
    }
}

impl<W: Write> Out<W> {
    /// Makes a sink of a writer. The sink is not broken, and has taken what the writer holds.
    pub fn new(writer: W) -> Out<W>
        ensures taken { ⟦<Out<W> as Sink>⟧.taken result ≡ W.contents writer }
        ensures whole { ⟦<Out<W> as Sink>⟧.is_broken result ≡ false }
    {
        Out {
            writer,
            broken: false,
        }
    }

    /// The writer.
    pub fn writer(&self) -> &W
        ensures { W.contents result.now ≡ ⟦<Out<W> as Sink>⟧.taken self.now }
    {
        &self.writer
    }
}

/// Puts all bytes into a sink, by as many calls of `put` as it needs.
///
/// After `NotTaken` the sink is broken, and it took a proper prefix of the bytes. A sink that was
/// broken before stays broken. This does not allocate.
pub fn put_all<W: Sink>(out: &mut W, bytes: &[u8]) -> Result<(), NotTaken>
    ensures ok { OnOk result (Appends (W.taken out.old) (W.taken out.new) bytes.now) }
    ensures broken { OnErr result (W.is_broken out.new ≡ true) }
    ensures whole { OnOk result (W.is_broken out.new ≡ W.is_broken out.old) }
    ensures stays { W.is_broken out.old ≡ true → W.is_broken out.new ≡ true }
    ensures prefix { OnErr result ((n : ℕ) × (n < length bytes.now)
        × Appends (W.taken out.old) (W.taken out.new) (take n bytes.now)) }
{
    let mut rest = bytes;
    while !rest.is_empty() {
        let count = out.put(rest);
        if count == 0 {
            return Err(NotTaken);
        }
        rest = &rest[count..];
    }
    Ok(())
}
