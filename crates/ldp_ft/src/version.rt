// The version of the library.
ghost use Rattle.std.specs.Prelude.{◌≡◌};
ghost use Rattle.ldp_ft.specs.Version.{library_version, packed_version};

// The three numbers, as include/ldp_ft.h has them.
const MAJOR: u8 = 5;

const MINOR: u8 = 0;

const PATCH: u8 = 0;

fn packed_version(major: u8, minor: u8, patch: u8) -> u32
    ensures { result ≡ packed_version major minor patch }
{
    major as u32 * 65536 + minor as u32 * 256 + patch as u32
}

// major * 65,536 + minor * 256 + patch.
#[unsafe(no_mangle)]
pub extern "C" fn ldp_ft_version() -> u32
    ensures { result ≡ library_version }
{
    packed_version(MAJOR, MINOR, PATCH)
}
