//! The commands that show a file, with a limit on what they read.

ghost use Rattle.std.specs.Prelude.{◌≡◌, ◌≢◌, ◌⊎◌, true, ℕ, List, [], ◌∷◌, length, Err, OnOk, IfOk, IfErr, IfSome, string_bytes};
ghost use Rattle.byte_fields.specs.Bytes.{AreBytes};
ghost use Rattle.byte_io.specs.At.{IfKnown, IfOf, Reads};
ghost use Rattle.byte_io.specs.Inputs.{Give};
ghost use Rattle.msf_blocks.specs.Layout.{HasLayout};
ghost use Rattle.show_commands.specs.Known.{within_refused, within_shown, within_unlaid};
ghost use Rattle.show_commands.specs.Show.{HasFailed, IsOfText};
ghost use Rattle.show_commands.specs.Shown.{ListsTooLong, Printed, PrintedPart, RefusesGiven, RefusesInput, RefusesOpened, RefusesPart, RefusesWhole, ShowsGiven, ShowsInput, ShowsOpened, ShowsPart, ShowsWhole, RefusesItRead, RefusesWithin, RefusesWithinRead, ShowsItRead, ShowsWithin, ShowsWithinRead, stream_of};

use crate::check::ShowCheck;
use crate::command::{Show, Text, text_at};
use crate::fault::RunFault;
use crate::info::ShowInfo;
use crate::record::ShowRecord;
use crate::records::ShowRecords;
use crate::streams::ShowStreams;
use crate::types::ShowTypes;
use byte_io::{AtFault, Inputs, ReadAt, ReadFault, Sink, put_all};
use msf_blocks::Layout;
use pdb_info::INFO_STREAM;
use run_options::Shown;
use std::alloc::Allocator;
use tpi_records::TPI_STREAM;

/// The stream that a command reads whole.
fn stream_of(command: Shown) -> Option<u32>
    ensures { result ≡ stream_of command }
{
    match command {
        Shown::Records | Shown::Record(_) | Shown::Types | Shown::Check => Some(TPI_STREAM),
        Shown::Info => Some(INFO_STREAM),
        Shown::Streams => None,
    }
}

/// A command, and how many bytes the stream that it reads may have at most, and the names that it
/// prints.
#[derive(Clone, Copy, Debug)]
struct Within {
    command: Shown,
    limit: u32,
}

impl Within {
    /// Checks the stream that the command reads, of a file with this layout.
    fn check_layout<L: Allocator, A: Allocator>(
        &self,
        layout: &Layout<L>,
    ) -> Result<(), RunFault<A>>
        ensures short { OnOk result (ListsTooLong self.now.command self.now.limit layout.now → ⊥) }
        ensures long { IfErr result (λ _. ListsTooLong self.now.command self.now.limit layout.now) }
        ensures own { IfErr result (λ fault. fault ≡ RunFault.TooLong) }
    {
        match stream_of(self.command) {
            Some(stream) if layout.is_longer(stream, self.limit) => Err(RunFault::TooLong),
            _ => Ok(()),
        }
    }

    /// Makes the whole text of a file with this layout, whose stream was checked.
    fn checked_text<R: ReadAt, A: Allocator + Copy>(
        &self,
        alloc: A,
        input: &mut R,
        layout: &Layout<A>,
    ) -> Text<A>
        requires bytes { IfKnown (R.bytes input.old) AreBytes }
        requires layout { IfKnown (R.bytes input.old) (λ file.
            HasLayout file layout.now) }
        ensures texts { IfOk result (λ text. ShowsItRead self.now.command self.now.limit
            (R.bytes input.old) layout.now (string_bytes text)) }
        ensures refused { IfErr result (IfOf (λ fault.
            RefusesItRead self.now.command self.now.limit (R.bytes input.old)
            layout.now fault
            ⊎ (fault ≡ RunFault.Memory))) }
        ensures pure { IfErr result (IfOf IsOfText) }
        ensures reads { Reads R.bytes R.is_broken input.old input.new result }
    {
        match self.command {
            Shown::Records => ShowRecords.text_of(alloc, input, layout),
            Shown::Record(index) => ShowRecord { index }.text_of(alloc, input, layout),
            Shown::Types => ShowTypes.text_of(alloc, input, layout),
            Shown::Check => ShowCheck.text_of(alloc, input, layout),
            Shown::Info => ShowInfo { limit: self.limit }.text_of(alloc, input, layout),
            Shown::Streams => ShowStreams.text_of(alloc, input, layout),
        }
    }
}

impl<A: Allocator + Copy> Show<A> for Within {
    ghost shows = { λ c. ShowsWithin c.command c.limit };

    ghost refuses = { λ c. RefusesWithin c.command c.limit };

    ghost shows_read = { λ c. ShowsWithinRead c.command c.limit };

    ghost refuses_read = { λ c. RefusesWithinRead c.command c.limit };

    fn text_of<R: ReadAt>(&self, alloc: A, input: &mut R, layout: &Layout<A>) -> Text<A> {
        self.check_layout(layout)?;
        self.checked_text(alloc, input, layout)
    }

    ghost shows_known = { λ c. within_shown c.command c.limit };

    ghost refuses_known = { λ c. within_refused c.command c.limit };

    ghost refuses_layout = { λ c. within_unlaid c.command c.limit };
}

impl Within {
    /// Makes the whole text of an input that is read by position. `TooLong` comes first, if the
    /// input says that it has more bytes than the limit allows.
    #[tactic(auto, unfolding(crate::specs::Shown::RefusesOpened))]
    fn text_of_opened<R: ReadAt, A: Allocator + Copy>(&self, alloc: A, input: &mut R) -> Text<A>
        ensures value { IfOk result (λ text. IfKnown (R.bytes input.old) (λ file.
            ShowsOpened self.now.command self.now.limit file (string_bytes text))) }
        ensures texts { IfOk result (λ text.
            ShowsGiven self.now.command self.now.limit (R.bytes input.old) (string_bytes text)) }
        ensures first { IfErr result (IfOf (λ fault. IfKnown (R.bytes input.old) (λ file.
            RefusesOpened self.now.command self.now.limit file fault))) }
        ensures refused { IfErr result (IfOf
            (RefusesGiven self.now.command self.now.limit (R.bytes input.old))) }
        ensures unwritten { IfErr result (IfOf (λ fault. fault ≢ RunFault.Write)) }
        ensures reads { Reads R.bytes R.is_broken input.old input.new result }
    {
        if u64::from(self.limit) < input.len() {
            return Err(AtFault::Of(RunFault::Read(ReadFault::TooLong)));
        }
        text_at(alloc, self, input, self.limit)
    }

    /// Opens the first input, and makes its whole text of what the command needs of it.
    #[tactic(auto, unfolding(crate::specs::Shown::ShowsPart, crate::specs::Shown::RefusesPart))]
    fn text_of_part<I: Inputs, A: Allocator + Copy>(&self, alloc: A, inputs: &I) -> Text<A>
        requires { IfSome (I.known inputs.now) (λ each. length each ≡ 1) }
        ensures value { (file : List ℕ) → Give (I.known inputs.now) (file ∷ []) →
            IfOk result (λ text.
            ShowsOpened self.now.command self.now.limit file (string_bytes text)) }
        ensures texts { IfOk result (λ text. ShowsPart self.now.command self.now.limit
            (I.outcomes inputs.now 0) (string_bytes text)) }
        ensures first { (file : List ℕ) → Give (I.known inputs.now) (file ∷ []) →
            IfErr result (IfOf (λ fault. fault ≢ RunFault.Memory →
            RefusesOpened self.now.command self.now.limit file fault)) }
        ensures refused { IfErr result (IfOf
            (RefusesPart self.now.command self.now.limit (I.outcomes inputs.now 0))) }
        ensures unwritten { IfErr result (IfOf (λ fault. fault ≢ RunFault.Write)) }
        ensures failed { IfErr result (λ fault. fault ≡ AtFault.Read →
            HasFailed (I.outcomes inputs.now 0) I.File.bytes I.File.is_broken) }
    {
        let mut buffer = Vec::new(alloc);
        let mut opened = match inputs.open(0, &mut buffer) {
            Ok(opened) => opened,
            Err(fault) => return Err(AtFault::Of(RunFault::from(fault))),
        };
        self.text_of_opened(alloc, &mut opened)
    }

    /// Reads the first input to its end, and makes its whole text.
    #[tactic(auto, unfolding(crate::specs::Shown::ShowsWhole, crate::specs::Shown::RefusesWhole))]
    fn text_of_whole<I: Inputs, A: Allocator + Copy>(
        &self,
        alloc: A,
        inputs: &I,
    ) -> Result<String<A>, RunFault<A>>
        requires { IfSome (I.known inputs.now) (λ each. length each ≡ 1) }
        ensures value { (file : List ℕ) → Give (I.known inputs.now) (file ∷ []) →
            IfOk result (λ text.
            ShowsOpened self.now.command self.now.limit file (string_bytes text)) }
        ensures texts { IfOk result (λ text. ShowsWhole self.now.command self.now.limit
            (I.outcomes inputs.now 0) (string_bytes text)) }
        ensures first { (file : List ℕ) → Give (I.known inputs.now) (file ∷ []) →
            IfErr result (λ fault. fault ≢ RunFault.Memory →
            RefusesOpened self.now.command self.now.limit file fault) }
        ensures refused { IfErr result
            (RefusesWhole self.now.command self.now.limit (I.outcomes inputs.now 0)) }
        ensures unwritten { IfErr result (λ fault. fault ≢ RunFault.Write) }
    {
        let mut buffer = Vec::new(alloc);
        let mut file = inputs.read(0, &mut buffer)?;
        match self.text_of_opened(alloc, &mut file) {
            Ok(text) => Ok(text),
            Err(AtFault::Of(fault)) => Err(fault),
            Err(AtFault::Read) => unreachable!(),
        }
    }
}

/// Runs a command that shows the one input, and reads of it what the command needs. If a read by
/// position fails, the input is read to its end. The whole text is made before any of it is written.
///
/// The input may have at most `limit` bytes, and so may its directory, the stream that the command
/// reads whole, and the names that `Info` prints together. This stream is stream 1 for `Info`, none
/// for `Streams`, and stream 2 for all others. `u32::MAX` is no limit.
///
/// The faults come in this order: those of opening the input; `TooLong`, if it says that it has more
/// bytes; those of the superblock; `TooLong` of the directory; the others of the container; `TooLong`
/// of the stream; those of the command for this file, with `TooLong` of the names where the info
/// stream is sound; those of reading the whole input, where a read by position failed; and `Write`,
/// where the sink did not take the whole text. Nothing is reserved for what is too long. After
/// `Write` the sink is broken and took the first bytes of the text. After any other fault it took
/// nothing.
pub fn run_shown<I: Inputs, W: Sink, A: Allocator + Copy>(
    alloc: A,
    command: Shown,
    inputs: &I,
    limit: u32,
    out: &mut W,
) -> Result<(), RunFault<A>>
    requires one { IfSome (I.known inputs.now) (λ each. length each ≡ 1) }
    ensures value { (file : List ℕ) → Give (I.known inputs.now) (file ∷ []) →
        OnOk result (Printed (ShowsOpened command limit file) (W.taken out.old) (W.taken out.new)) }
    // Even if the input is not known, this is the text of what opening or reading it gave.
    ensures texts { OnOk result (Printed
        (ShowsInput command limit (I.outcomes inputs.now 0) I.File.bytes I.File.is_broken)
        (W.taken out.old) (W.taken out.new)) }
    ensures first { (file : List ℕ) → Give (I.known inputs.now) (file ∷ []) →
        IfErr result (λ fault. fault ≢ RunFault.Write → fault ≢ RunFault.Memory →
        RefusesOpened command limit file fault) }
    // Even if the input is not known, this is the fault of what opening or reading it gave.
    ensures refused { IfErr result (λ fault. fault ≢ RunFault.Write → RefusesInput command limit
        (I.outcomes inputs.now 0) I.File.bytes I.File.is_broken fault) }
    ensures broken { result ≡ Err RunFault.Write → W.is_broken out.new ≡ true }
    ensures part { (file : List ℕ) → Give (I.known inputs.now) (file ∷ []) →
        result ≡ Err RunFault.Write →
        PrintedPart (ShowsOpened command limit file) (W.taken out.old) (W.taken out.new) }
    ensures texts_part { result ≡ Err RunFault.Write → PrintedPart
        (ShowsInput command limit (I.outcomes inputs.now 0) I.File.bytes I.File.is_broken)
        (W.taken out.old) (W.taken out.new) }
    ensures untouched { IfErr result (λ fault. (fault ≡ RunFault.Write)
        ⊎ (out.new ≡ out.old)) }
{
    let shown = Within { command, limit };
    // Each path puts its own text, so that a clause speaks of the bytes that it is of.
    let text = match shown.text_of_part(alloc, inputs) {
        Ok(text) => text,
        Err(AtFault::Of(fault)) => return Err(fault),
        Err(AtFault::Read) => {
            let text = shown.text_of_whole(alloc, inputs)?;
            put_all(out, text.as_bytes())?;
            return Ok(());
        }
    };
    put_all(out, text.as_bytes())?;
    Ok(())
}
