//! The version of the library.
ghost use Rattle.std.specs.Prelude.{◌≡◌};
ghost use Rattle.numaplan_c.specs.Version.{version_number};

/// The version, as in the file VERSION, as one number: 2003004 is 2.3.4.
#[unsafe(no_mangle)]
pub extern "C" fn np_version() -> u32
    ensures { result ≡ version_number 0 10 0 }
{
    10_000
}
