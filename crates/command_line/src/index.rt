//! What an argument of the command line asks for: a type index, or a name.

ghost use Rattle.std.specs.Prelude.{IfSome, IfNone, ℕ};
ghost use Rattle.command_line.specs.Index.{AsksFor, IsIndexArgument};

use type_expressions::Query;

/// The type index that an argument is: `0x` and 1 to 8 hexadecimal digits of either case, and
/// nothing else. `None` for any other argument. This does not allocate.
pub fn read_index(argument: &str) -> Option<u32>
    ensures value { IfSome result (IsIndexArgument argument.now) }
    ensures none { IfNone result ((value : ℕ) → IsIndexArgument argument.now value → ⊥) }
{
    let digits = argument.strip_prefix("0x")?;
    // `from_str_radix` accepts a sign before a number, but a type index has no sign.
    if digits.len() > 8 || digits.starts_with('+') {
        return None;
    }
    u32::from_str_radix(digits, 16).ok()
}

/// What an argument asks for: the type with this type index, where it is one, and else the types
/// with this name.
pub fn query_of(argument: &str) -> Query<'_>
    ensures { AsksFor argument.now result }
{
    match read_index(argument) {
        Some(index) => Query::Index(index),
        None => Query::Name(argument.as_bytes()),
    }
}
