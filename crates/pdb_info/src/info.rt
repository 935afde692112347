//! Reads the whole info stream.

ghost use Rattle.std.specs.Prelude.{◌≡◌, ◌+◌, ◌*◌, ◌≤◌, map, length, None, IfOk, IfErr};
ghost use Rattle.byte_fields.specs.Check.{Makes, Refuses, first_failing, checks_below};
ghost use Rattle.pdb_info.specs.Header.{HasInfoHeader};
ghost use Rattle.pdb_info.specs.Names.{IsMap, pair_checks, pairs_offset, size_of};
ghost use Rattle.pdb_info.specs.Name.{named};
ghost use Rattle.pdb_info.specs.Info.{InfoView, HasInfo, info_checks};

use crate::fault::InfoFault;
use crate::header::InfoHeader;
use crate::map::NameMap;
use crate::names::Name;
use std::alloc::{Allocator, Global};
use std::marker::Model;

/// What an info stream says: its header, the streams that have a name, and the feature codes.
///
/// Made by [`Info::read`]. The names are lent from the stream. ("The PDB Info Stream".)
#[derive(Debug, Drop)]
pub struct Info<'a, A: Allocator = Global> {
    header: InfoHeader,
    names: Vec<Name<'a>, A>,
    features: Vec<u32, A>,
}

impl<'a, A: Allocator> Model for Info<'a, A> {
    ghost use Rattle.std.specs.Prelude.{map};
    ghost use Rattle.pdb_info.specs.Name.{named};
    ghost use Rattle.pdb_info.specs.Info.{InfoView};

    ghost Value = { InfoView };

    ghost view = { λ i.
        record
        { header = i.header; names = map named i.names.items; features = i.features.items } };
}

/// Checks an info stream, and returns its header and where its names are. This does not allocate.
#[tactic(auto, using(crate::proofs::InfoLaws::header_fault, crate::proofs::InfoLaws::map_fault, crate::proofs::InfoLaws::pairs_answer))]
fn check(stream: &[u8]) -> Result<(InfoHeader, NameMap), InfoFault>
    ensures header { IfOk result (λ found. HasInfoHeader stream.now found.0) }
    ensures map { IfOk result (λ found. IsMap stream.now found.1) }
    ensures inside { IfOk result (λ _.
        pairs_offset stream.now + 8 * size_of stream.now ≤ length stream.now) }
    ensures held { IfOk result (λ _.
        first_failing (checks_below (size_of stream.now) (pair_checks stream.now)) ≡ None) }
    ensures first { Makes result (info_checks stream.now) }
{
    let header = InfoHeader::read(stream)?;
    let map = NameMap::find(stream)?;
    map.check_pairs(stream)?;
    Ok((header, map))
}

impl<'a, A: Allocator + Copy> Info<'a, A> {
    /// Reads an info stream.
    ///
    /// The faults, in the order in which they are checked:
    ///
    /// 1. `InfoShort`: the stream has fewer than 28 bytes.
    /// 2. `NamesShort`: a field of the named stream map before the pairs passes the end of the
    ///    stream. The fields are checked in order.
    /// 3. `NamesCount`: Size is not the number of present buckets.
    /// 4. For each pair in turn, `NamesShort`: the pair passes the end of the stream. `NameOffset`:
    ///    its name has no end in the buffer.
    /// 5. `Memory`: out of memory for the names or the feature codes. Nothing is allocated before
    ///    all checks passed.
    ///
    /// One to three bytes after the last feature code are ignored. This allocates room for the
    /// names and the feature codes of the stream, and while the names are read 4 bytes for each 64
    /// bytes of the string buffer. It takes time in proportion to the stream. ("The PDB Info
    /// Stream", "Named Stream Map".)
    pub fn read(alloc: A, stream: &'a [u8]) -> Result<Info<'a, A>, InfoFault>
        ensures value { IfOk result (HasInfo stream.now) }
        // A stream that has these parts is refused only when out of memory.
        ensures found { (info : InfoView) → HasInfo stream.now info →
            IfErr result (λ fault. fault ≡ InfoFault.Memory) }
        ensures first { IfErr result
            (Refuses InfoFault.Memory (first_failing (info_checks stream.now))) }
    {
        let (header, map) = check(stream)?;
        let names = map.names(alloc, stream)?;
        let features = map.features(alloc, stream)?;
        Ok(Info {
            header,
            names,
            features,
        })
    }
}

impl<'a, A: Allocator> Info<'a, A> {
    /// The header.
    pub fn header(&self) -> &InfoHeader
        ensures { result.now ≡ self.now.header }
    {
        &self.header
    }

    /// The streams that have a name, in the order of their buckets.
    pub fn names(&self) -> &[Name<'a>]
        ensures { map named result.now ≡ self.now.names }
    {
        &self.names
    }

    /// The feature codes, in the order of the stream.
    pub fn features(&self) -> &[u32]
        ensures { result.now ≡ self.now.features }
    {
        &self.features
    }
}
