//! The version of the header.

ghost use Rattle.std.specs.Prelude.{◌≡◌};

/// The version of `include/pelgaisti.h` that this library was built with. It rises when a program that was compiled with the
/// header before could not use the library: when a struct or the meaning of a number changes.
pub const HEADER_VERSION: u32 = 6;

/// Returns the version of the header that the library was built with, for a caller to compare with that of its own header.
#[unsafe(no_mangle)]
pub extern "C" fn pelgaisti_version() -> u32
    ensures { result ≡ HEADER_VERSION }
{
    HEADER_VERSION
}
