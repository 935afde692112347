//! How a command that shows a file runs.

ghost use Rattle.std.specs.Prelude.{◌≡◌, ◌⊎◌, ℕ, List, IfOk, IfErr, string_bytes};
ghost use Rattle.byte_fields.specs.Bytes.{AreBytes};
ghost use Rattle.byte_io.specs.At.{Bytes, IfKnown, IfOf, Reads};
ghost use Rattle.msf_blocks.specs.Layout.{HasLayout};
ghost use Rattle.show_commands.specs.Show.{Answers, IsOfText, IsOfTexts, IsFaultOfTexts, RefusesBounded, ShowsBounded};
ghost use Rattle.show_commands.specs.declared.fault.RunFault.{RunFault};

use crate::fault::RunFault;
use byte_io::{AtFault, Limited, ReadAt, Sink, Source, put_all, read_all};
use file_types::PdbFault;
use msf_blocks::Layout;
use std::alloc::Allocator;

/// The text of a command, or why there is none.
pub type Text<A> = Result<String<A>, AtFault<RunFault<A>>>;

/// A command that shows a file, and reads by position only the parts of it that it needs.
pub trait Show<A: Allocator + Copy> {
    ghost use Rattle.msf_blocks.specs.Layout.{LayoutView};
    ghost use Rattle.show_commands.specs.Show.{RefusesKnown, RefusesUnlaid, ShowsKnown};

    /// The command prints this text for this file.
    ghost shows: { Self → List ℕ → List ℕ → Type 0 };

    /// The command refuses this file with this fault, which is the first that it meets.
    ghost refuses: { Self → List ℕ → RunFault A → Type 0 };

    /// The command prints this text of what reads gave of this layout.
    ghost shows_read: { Self → Bytes → LayoutView → List ℕ → Type 0 };

    /// The command refuses what reads gave of this layout with this fault.
    ghost refuses_read: { Self → Bytes → LayoutView → RunFault A → Type 0 };

    /// Makes the whole text of a file with this layout.
    fn text_of<R: ReadAt>(&self, alloc: A, input: &mut R, layout: &Layout<A>) -> Text<A>
        requires bytes { IfKnown (R.bytes input.old) AreBytes }
        requires layout { IfKnown (R.bytes input.old) (λ file.
            HasLayout file layout.now) }
        ensures texts { IfOk result (λ text.
            shows_read self.now (R.bytes input.old) layout.now (string_bytes text)) }
        ensures refused { IfErr result (IfOf (λ fault.
            refuses_read self.now (R.bytes input.old) layout.now fault
            ⊎ (fault ≡ RunFault.Memory))) }
        ensures pure { IfErr result (IfOf IsOfText) }
        ensures reads { Reads R.bytes R.is_broken input.old input.new result };

    /// Of a file that is known, the text of what reads gave is the text that shows the file.
    ghost shows_known: { (c : Self) → ShowsKnown (shows c) (shows_read c) };

    /// Of a file that is known, the fault of what reads gave is the fault of the file.
    ghost refuses_known: { (c : Self) → RefusesKnown (refuses c) (refuses_read c) };

    /// The first fault of its container is the fault of the file.
    ghost refuses_layout: { (c : Self) → RefusesUnlaid (refuses c) };
}

/// Makes the whole text of a file that is read by position. Its layout is read once, and its
/// directory may have at most `limit` bytes.
pub fn text_at<C: Show<A>, R: ReadAt, A: Allocator + Copy>(
    alloc: A,
    command: &C,
    input: &mut R,
    limit: u32,
) -> Text<A>
    ensures value { IfOk result (λ text. IfKnown (R.bytes input.old) (λ file.
        ShowsBounded limit (C.shows command.now) file (string_bytes text))) }
    ensures texts { IfOk result (λ text.
        IsOfTexts limit (C.shows_read command.now) (R.bytes input.old)
        (string_bytes text)) }
    ensures first { IfErr result (IfOf (λ fault. IfKnown (R.bytes input.old) (λ file.
        RefusesBounded limit (C.refuses command.now) file fault ⊎ (fault ≡ RunFault.Memory)))) }
    ensures refused { IfErr result (IfOf (λ fault.
        IsFaultOfTexts limit (C.refuses_read command.now) (R.bytes input.old) fault
        ⊎ (fault ≡ RunFault.Memory))) }
    ensures pure { IfErr result (IfOf IsOfText) }
    ensures reads { Reads R.bytes R.is_broken input.old input.new result }
{
    let layout = match Layout::read_within(alloc, input, limit) {
        Ok(layout) => layout,
        Err(AtFault::Of(Limited::TooLong)) => return Err(AtFault::Of(RunFault::TooLong)),
        Err(AtFault::Of(Limited::Of(fault))) => {
            return Err(AtFault::Of(RunFault::from(PdbFault::from(fault))));
        }
        Err(AtFault::Read) => return Err(AtFault::Read),
    };
    command.text_of(alloc, input, &layout)
}

/// Makes the whole text of a file in memory, with no limit on its directory.
fn text_in<C: Show<A>, A: Allocator + Copy>(
    alloc: A,
    command: &C,
    file: &[u8],
) -> Result<String<A>, RunFault<A>>
    ensures value { IfOk result (λ text. C.shows command.now file.now (string_bytes text)) }
    ensures first { IfErr result (λ fault.
        C.refuses command.now file.now fault ⊎ (fault ≡ RunFault.Memory)) }
    ensures pure { IfErr result IsOfText }
{
    let mut input = file;
    match text_at(alloc, command, &mut input, u32::MAX) {
        Ok(text) => Ok(text),
        Err(AtFault::Of(fault)) => Err(fault),
        Err(AtFault::Read) => unreachable!(),
    }
}

/// Runs a command: reads the whole input, makes the whole text, then writes the text.
///
/// `limit` is the greatest number of bytes that the input may have. The faults come in this order:
/// those of reading; those of the command for this file; and `Write`, where the sink did not take
/// the whole text. After `Write` the sink is broken and took the first bytes of the text. After any
/// other fault it took nothing.
pub fn run<C: Show<A>, R: Source, W: Sink, A: Allocator + Copy>(
    alloc: A,
    command: &C,
    input: &mut R,
    limit: u32,
    out: &mut W,
) -> Result<(), RunFault<A>>
    ensures { Answers (C.shows command.now) (C.refuses command.now) limit (R.left input.old)
        (R.left input.new) (R.is_broken input.new) W.taken W.is_broken out.old out.new result }
{
    let file = read_all(alloc, input, limit)?;
    let text = text_in(alloc, command, &file)?;
    put_all(out, text.as_bytes())?;
    Ok(())
}
