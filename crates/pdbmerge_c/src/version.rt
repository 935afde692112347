//! The version of the library.

ghost use Rattle.std.specs.Prelude.{◌≡◌};

/// The version 0.2.0: major, minor and patch, a byte each.
const VERSION: u32 = 0x0000_0200;

/// The version of the library: major, minor and patch, a byte each.
#[unsafe(no_mangle)]
pub extern "C" fn pdbmerge_version() -> u32
    ensures { result ≡ 512 }
{
    VERSION
}
