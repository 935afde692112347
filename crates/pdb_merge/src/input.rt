//! One of several inputs: its stream 2 and its types.

ghost use Rattle.std.specs.Prelude.{◌≡◌, ◌⊎◌, ◌<◌, ◌+◌, ◌^◌, [], ℕ, List, length, get_or, OnOk, IfOk, IfErr, IfSome};
ghost use Rattle.byte_io.specs.At.{IfOf, Reads, stable};
ghost use Rattle.byte_io.specs.Inputs.{CanRead, Give};
ghost use Rattle.pdb_merge.specs.Answer.{RefusesFiles, RefusesReading};
ghost use Rattle.pdb_merge.specs.Fault.{merge_from_add, merge_from_input, NamesFault};
ghost use Rattle.pdb_merge.specs.Own.{merge_from_own, IsNotRefused, IsOfReading, IsOwnReadFault, OwnNamesFault, ReadsInput, ReadsTo};
ghost use Rattle.pdb_merge.specs.declared.fault.AddFault.TheVariants as add;
ghost use Rattle.pdb_merge.specs.declared.input.OwnFault.TheVariants as own;
ghost use Rattle.file_types.specs.Read.{ListsStream, IsAccepted};
ghost use Rattle.pdb_merge.specs.Union.{AcceptedBelow, IsReadingFaultAt, ReadsFirst};

use crate::bounded::BoundedInputs;
use crate::fault::{AddFault, MergeFault};
use byte_io::{AtFault, InputFault, Inputs, Lend, Limited, ReadFault};
use checked_types::Types;
use file_types::{Buffer, PdbFault, check_types, read_stream_within};
use std::alloc::{Allocator, Global};

/// The bytes of one input, and those of its TPI stream where they can't be lent.
#[derive(Debug, Drop)]
struct ReadBytes<A: Allocator> {
    bytes: Vec<u8, A>,
    buffer: Buffer<A>,
}

impl<A: Allocator + Copy> ReadBytes<A> {
    /// Holds nothing yet. This does not allocate.
    fn new(alloc: A) -> ReadBytes<A> {
        ReadBytes {
            bytes: Vec::new(alloc),
            buffer: Buffer::new(alloc),
        }
    }
}

/// Holds what is read of one input. Its types are then lent from here, or from the input.
///
/// If a read by position fails, the input is read again, to its end. The second read has memory of
/// its own, which is used only then.
#[derive(Debug, Drop)]
pub struct InputBuffer<A: Allocator = Global> {
    opened: ReadBytes<A>,
    whole: ReadBytes<A>,
}

impl<A: Allocator + Copy> InputBuffer<A> {
    /// An empty buffer, which grows with this allocator. This does not allocate.
    pub fn new(alloc: A) -> InputBuffer<A> {
        InputBuffer {
            opened: ReadBytes::new(alloc),
            whole: ReadBytes::new(alloc),
        }
    }
}

/// The fault of the file at this position.
pub(crate) fn at_file<A: Allocator>(file: usize, fault: AddFault<A>) -> MergeFault<A>
    ensures { result ≡ merge_from_add file fault }
{
    match fault {
        AddFault::Refused(fault) => MergeFault::Refused { file, fault },
        AddFault::TooLarge { bytes } => MergeFault::TooLarge { file, bytes },
        AddFault::Memory => MergeFault::Memory,
    }
}

/// The fault of reading the file at this position.
fn input_fault<A: Allocator>(file: usize, fault: InputFault) -> MergeFault<A>
    ensures value { result ≡ merge_from_input file fault }
    ensures kind { IsOfReading result }
{
    match fault {
        InputFault::Read(ReadFault::Memory) => MergeFault::Memory,
        fault => MergeFault::Input { file, fault },
    }
}

/// Checks that the inputs from this one on can be read.
pub(crate) fn check_rest<I: Inputs, A: Allocator>(
    inputs: &I,
    first: usize,
) -> Result<(), MergeFault<A>>
    requires { IfSome (I.known inputs.now) (λ each. CanRead each first) }
    ensures value { OnOk result (IfSome (I.known inputs.now) (λ each. CanRead each (length each))) }
    ensures refuses { (limit : ℕ) → IfErr result (RefusesFiles (I.known inputs.now) limit) }
    ensures found { (files : List (List ℕ)) → Give (I.known inputs.now) files →
        IfErr result (λ fault. fault ≡ MergeFault.Memory) }
    ensures kind { IfErr result IsOfReading }
{
    for input in first..inputs.count() {
        if let Err(fault) = inputs.check(input) {
            return Err(input_fault(input, fault));
        }
    }
    Ok(())
}

/// Why an input is not added, as far as this input goes.
#[derive(Debug, Drop)]
pub(crate) enum OwnFault<A: Allocator> {
    /// It was not read.
    Unread(InputFault),
    /// It was read, and is not added for this reason.
    Of(AddFault<A>),
}

impl<A: Allocator> OwnFault<A> {
    /// Why the file is not accepted. Any other fault is given back.
    pub(crate) fn refused(self) -> Result<PdbFault<A>, OwnFault<A>>
        ensures ok { IfOk result (λ inner. self ≡ own.Of (add.Refused inner)) }
        ensures err { IfErr result (λ fault. (fault ≡ self) × IsNotRefused fault) }
    {
        match self {
            OwnFault::Of(AddFault::Refused(fault)) => Ok(fault),
            fault => Err(fault),
        }
    }
}

/// The fault for an input that is not added, because of its own fault. If it was read, and an input
/// after it cannot be read, that comes first.
pub(crate) fn refuse<I: Inputs, A: Allocator>(
    inputs: &I,
    input: usize,
    fault: OwnFault<A>,
) -> MergeFault<A>
    requires few { input + 1 < 2 ^ 64 }
    requires before { IfSome (I.known inputs.now) (λ each. CanRead each input) }
    requires read { IfSome (I.known inputs.now) (λ each. ReadsTo each input fault) }
    requires named { OwnNamesFault fault }
    ensures kind { (result ≡ merge_from_own input fault) ⊎ IsOfReading result }
    // If every input can be read, the fault is that of this input, or out of memory.
    ensures own { (files : List (List ℕ)) → Give (I.known inputs.now) files →
        (result ≡ merge_from_own input fault) ⊎ (result ≡ MergeFault.Memory) }
    ensures first { IfSome (I.known inputs.now) (λ each. ReadsFirst each result) }
    ensures named { NamesFault result }
{
    match fault {
        OwnFault::Unread(fault) => input_fault(input, fault),
        OwnFault::Of(fault) => match check_rest(inputs, input + 1) {
            Ok(()) => at_file(input, fault),
            Err(unread) => unread,
        },
    }
}

/// Reads stream 2 of an input by a reader of its bytes, whose parts are held against the limit of the
/// inputs. `AtFault::Read` is a read that failed.
fn read_with<'a, 'b: 'a, I: BoundedInputs, R: Lend<'b>, A: Allocator + Copy>(
    alloc: A,
    inputs: &I,
    input: usize,
    reader: &mut R,
    buffer: &'a mut Buffer<A>,
) -> Result<&'a [u8], AtFault<OwnFault<A>>>
    requires { IfSome (I.known inputs.now) (λ each. ReadsInput each input (R.bytes reader.old)) }
    ensures reads { Reads R.bytes R.is_broken reader.old reader.new result }
    ensures value { (file : List ℕ) → R.bytes reader.old ≡ stable file →
        IfOk result (λ stream. ListsStream file stream.now) }
    ensures own { (files : List (List ℕ)) → Give (I.known inputs.now) files →
        R.bytes reader.old ≡ stable (get_or files input []) →
        IfErr result (IfOf (IsOwnReadFault (get_or files input []))) }
    ensures first { IfErr result (IfOf (λ fault.
        IfSome (I.known inputs.now) (λ each. ReadsTo each input fault))) }
    ensures named { IfErr result (IfOf OwnNamesFault) }
{
    match read_stream_within(alloc, reader, inputs.limit(), buffer) {
        Ok(stream) => Ok(stream),
        Err(AtFault::Of(Limited::TooLong)) => {
            let fault = InputFault::Read(ReadFault::TooLong);
            Err(AtFault::Of(OwnFault::Unread(fault)))
        }
        Err(AtFault::Of(Limited::Of(fault))) => {
            Err(AtFault::Of(OwnFault::Of(AddFault::from(fault))))
        }
        Err(AtFault::Read) => Err(AtFault::Read),
    }
}

/// Reads the input at a position to its end, and lends its stream 2.
fn read_whole<'a, I: BoundedInputs, A: Allocator + Copy>(
    alloc: A,
    inputs: &'a I,
    input: usize,
    held: &'a mut ReadBytes<A>,
) -> Result<&'a [u8], OwnFault<A>>
    requires inside { IfSome (I.known inputs.now) (λ each. input < length each) }
    requires before { IfSome (I.known inputs.now) (λ each. CanRead each input) }
    ensures value { (files : List (List ℕ)) → Give (I.known inputs.now) files →
        IfOk result (λ stream. ListsStream (get_or files input []) stream.now) }
    ensures read { OnOk result (IfSome (I.known inputs.now) (λ each. CanRead each (input + 1))) }
    ensures own { (files : List (List ℕ)) → Give (I.known inputs.now) files →
        IfErr result (IsOwnReadFault (get_or files input [])) }
    ensures first { IfErr result (λ fault.
        IfSome (I.known inputs.now) (λ each. ReadsTo each input fault)) }
    ensures named { IfErr result OwnNamesFault }
{
    let mut file = match inputs.read(input, &mut held.bytes) {
        Ok(file) => file,
        Err(fault) => return Err(OwnFault::Unread(fault)),
    };
    match read_with(alloc, inputs, input, &mut file, &mut held.buffer) {
        Ok(stream) => Ok(stream),
        Err(AtFault::Of(fault)) => Err(fault),
        Err(AtFault::Read) => unreachable!(),
    }
}

/// Reads stream 2 of the input at a position, from 0, on the way to its types. The inputs before it
/// were read. The stream is lent from the buffer or from the input, and is not checked yet.
///
/// The fault is that of this input alone: later inputs are not looked at. Merges and comparisons read
/// each input by this function.
pub(crate) fn read_input<'a, I: BoundedInputs, A: Allocator + Copy>(
    alloc: A,
    inputs: &'a I,
    input: usize,
    buffer: &'a mut InputBuffer<A>,
) -> Result<&'a [u8], OwnFault<A>>
    requires inside { IfSome (I.known inputs.now) (λ each. input < length each) }
    requires before { IfSome (I.known inputs.now) (λ each. CanRead each input) }
    ensures value { (files : List (List ℕ)) → Give (I.known inputs.now) files →
        IfOk result (λ stream. ListsStream (get_or files input []) stream.now) }
    ensures read { OnOk result (IfSome (I.known inputs.now) (λ each. CanRead each (input + 1))) }
    ensures own { (files : List (List ℕ)) → Give (I.known inputs.now) files →
        IfErr result (IsOwnReadFault (get_or files input [])) }
    ensures first { IfErr result (λ fault.
        IfSome (I.known inputs.now) (λ each. ReadsTo each input fault)) }
    ensures named { IfErr result OwnNamesFault }
{
    let held = &mut buffer.opened;
    let whole = &mut buffer.whole;
    let mut opened = match inputs.open(input, &mut held.bytes) {
        Ok(opened) => opened,
        Err(fault) => return Err(OwnFault::Unread(fault)),
    };
    match read_with(alloc, inputs, input, &mut opened, &mut held.buffer) {
        Ok(stream) => Ok(stream),
        Err(AtFault::Of(fault)) => Err(fault),
        Err(AtFault::Read) => read_whole(alloc, inputs, input, whole),
    }
}

/// Reads the types of the input at a position, from 0. The inputs before it were read. The types
/// are lent from the buffer or from the input.
///
/// The input is opened, read and checked as in a merge. An input that is opened by position is read
/// only as far as its types need it. If such a read fails, the input is read to its end. An input
/// that cannot be read is refused first, `Input`, even if it comes after one that has a fault of
/// its own. If a part of this input is longer than the limit of the inputs, this input cannot be
/// read; parts of later inputs are not looked at. Then comes the fault of this input, `Refused`.
/// Both name the input by its position. `Memory` is out of memory.
pub fn read_input_types<'a, I: BoundedInputs, A: Allocator + Copy>(
    alloc: A,
    inputs: &'a I,
    input: usize,
    buffer: &'a mut InputBuffer<A>,
) -> Result<Types<'a, A>, MergeFault<A>>
    requires few { input + 1 < 2 ^ 64 }
    requires inside { IfSome (I.known inputs.now) (λ each. input < length each) }
    requires before { IfSome (I.known inputs.now) (λ each. CanRead each input) }
    ensures value { (files : List (List ℕ)) → Give (I.known inputs.now) files →
        IfOk result (IsAccepted (get_or files input [])) }
    ensures read { OnOk result (IfSome (I.known inputs.now) (λ each. CanRead each (input + 1))) }
    // If the inputs before this one are accepted, the fault is the first fault of all inputs.
    ensures refuses { ((files : List (List ℕ)) → Give (I.known inputs.now) files →
        AcceptedBelow files input) →
        IfErr result (RefusesReading (I.known inputs.now)) }
    // If every input can be read, the fault is that of this input.
    ensures own { (files : List (List ℕ)) → Give (I.known inputs.now) files →
        IfErr result (IsReadingFaultAt files input) }
{
    let stream = match read_input(alloc, inputs, input, buffer) {
        Ok(stream) => stream,
        Err(fault) => return Err(refuse(inputs, input, fault)),
    };
    match check_types(alloc, stream) {
        Ok(types) => Ok(types),
        Err(fault) => Err(refuse(inputs, input, OwnFault::Of(AddFault::from(fault)))),
    }
}
