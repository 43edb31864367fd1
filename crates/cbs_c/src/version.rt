//! The version of the library.

ghost use Rattle.std.specs.Prelude.{◌≡◌, ◌+◌, ◌*◌};

/// The major version: `CBS_VERSION_MAJOR`.
pub const MAJOR: u32 = 0;

/// The minor version: `CBS_VERSION_MINOR`.
pub const MINOR: u32 = 1;

/// The patch version: `CBS_VERSION_PATCH`.
pub const PATCH: u32 = 0;

/// Returns the version of the library as one number, of the same form as `CBS_VERSION` in the header.
#[unsafe(no_mangle)]
pub extern "C" fn cbs_version() -> u32
    ensures { result ≡ MAJOR * 10000 + MINOR * 100 + PATCH }
{
    MAJOR * 10_000 + MINOR * 100 + PATCH
}
