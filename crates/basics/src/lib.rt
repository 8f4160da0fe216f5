// A choice between two values, without a branch.
#![tactic(auto)]

ghost use Rattle.std.specs.Prelude.{◌≡◌};
ghost use Rattle.model.specs.Logic.{when◌then◌else◌};

// The first value where the test holds, else the second.
pub fn choose<T: Copy>(test: bool, a: T, b: T) -> T
    ensures { result ≡ (when test then a else b) }
{
    if test { a } else { b }
}
