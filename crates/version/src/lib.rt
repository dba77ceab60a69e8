// Which version of the library this is, as one number that a program can ask for.
#![tactic(auto)]

ghost use Rattle.std.specs.Prelude.{◌≡◌};
ghost use Rattle.version.specs.Version.{version_number};

const MAJOR: u32 = 1;

const MINOR: u32 = 3;

const PATCH: u32 = 0;

// The version: major times 1,000,000, plus minor times 1,000, plus patch.
pub fn version() -> u32
    ensures answer { result ≡ version_number 1 3 0 }
{
    MAJOR * 1000000 + MINOR * 1000 + PATCH
}
