//! The lines of what identifies a file.

ghost use Rattle.std.specs.Prelude.{◌≡◌, ◌++◌, map, OnOk, string_bytes};
ghost use Rattle.std.specs.List.{flat_map};
ghost use Rattle.pdb_info.specs.Name.{named};
ghost use Rattle.output_lines.specs.Info.{signature_line, guid_line, header_lines, name_line, feature_line};

use output_words::{push_index, push_named, push_number, push_quoted};
use pdb_info::{InfoHeader, Name};
use std::alloc::{AllocError, Allocator};
use uuid::Uuid;

/// Appends the line of the signature.
#[tactic(auto, unfolding(crate::specs::Info::signature_line))]
fn push_signature<A: Allocator>(text: &mut String<A>, signature: u32) -> Result<(), AllocError>
    ensures { OnOk result
        (string_bytes text.new ≡ string_bytes text.old ++ signature_line signature) }
{
    text.push_str("signature ")?;
    push_index(text, signature)?;
    text.push_str("\n")?;
    Ok(())
}

/// Appends the line of the GUID.
#[tactic(auto, unfolding(crate::specs::Info::guid_line))]
fn push_guid<A: Allocator>(text: &mut String<A>, guid: Uuid) -> Result<(), AllocError>
    ensures { OnOk result (string_bytes text.new ≡ string_bytes text.old ++ guid_line guid) }
{
    let mut buffer = Uuid::encode_buffer();
    text.push_str("guid ")?;
    text.push_str(guid.hyphenated().encode_lower(&mut buffer))?;
    text.push_str("\n")?;
    Ok(())
}

/// Appends the lines of the header of an info stream.
#[tactic(auto, unfolding(crate::specs::Info::header_lines))]
pub fn push_info_header<A: Allocator>(
    text: &mut String<A>,
    header: &InfoHeader,
) -> Result<(), AllocError>
    ensures { OnOk result
        (string_bytes text.new ≡ string_bytes text.old ++ header_lines header.now) }
{
    push_named(text, "version", header.version())?;
    push_signature(text, header.signature())?;
    push_named(text, "age", header.age())?;
    push_guid(text, header.guid())?;
    Ok(())
}

/// Appends the line of a named stream.
#[tactic(auto, unfolding(crate::specs::Info::name_line))]
fn push_name<A: Allocator>(text: &mut String<A>, name: &Name<'_>) -> Result<(), AllocError>
    ensures { OnOk result
        (string_bytes text.new ≡ string_bytes text.old ++ name_line (named name.now)) }
{
    text.push_str("name ")?;
    push_quoted(text, name.text)?;
    push_number(text, u64::from(name.stream))?;
    text.push_str("\n")?;
    Ok(())
}

/// Appends the lines of all named streams.
pub fn push_names<A: Allocator>(text: &mut String<A>, names: &[Name<'_>]) -> Result<(), AllocError>
    ensures { OnOk result
        (string_bytes text.new
        ≡ string_bytes text.old ++ flat_map name_line (map named names.now)) }
{
    for name in names {
        push_name(text, name)?;
    }
    Ok(())
}

/// Appends the lines of all feature codes.
pub fn push_features<A: Allocator>(text: &mut String<A>, features: &[u32]) -> Result<(), AllocError>
    ensures { OnOk result
        (string_bytes text.new ≡ string_bytes text.old ++ flat_map feature_line features.now) }
{
    for feature in features {
        push_named(text, "feature", *feature)?;
    }
    Ok(())
}
