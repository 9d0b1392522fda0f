// The library's version.
ghost use Rattle.std.specs.Prelude.{◌≡◌};
ghost use Rattle.rulzhamm.specs.Version.{version};

// Major, minor and patch as one number, two digits each: `RULZHAMM_VERSION` of include/rulzhamm.h.
pub fn rulzhamm_version() -> u32
    ensures { result ≡ version }
{
    200
}
