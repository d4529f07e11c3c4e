// The version of the C functions, so that firmware can compare at its start what it was compiled for with what it runs on.
#![tactic(auto)]

ghost use Rattle.std.specs.Prelude.{◌≡◌};
ghost use Rattle.lean_version.specs.Version.{version};

const INTERFACE: u32 = 3;

const REVISION: u32 = 0;

// The number that the headers call LEAN_VERSION.
#[unsafe(no_mangle)]
pub extern "C" fn lean_version() -> u32
    ensures { result ≡ version }
{
    65536 * INTERFACE + REVISION
}
