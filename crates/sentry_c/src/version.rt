//! The version of the library.

ghost use Rattle.std.specs.Prelude.{◌≡◌};

/// The version as a number: 1,000,000 for each major version, 1,000 for each minor one, and 1 for
/// each patch. That of 0.2.0.
pub const VERSION: u32 = 2000;

/// Returns the version of the library, as a number.
#[unsafe(no_mangle)]
pub extern "C" fn curdmesa_version() -> u32
    ensures { result ≡ VERSION }
{
    VERSION
}
