//! Numbers that are drawn from a seed.

ghost use Rattle.std.specs.Prelude.{◌≡◌};
ghost use Rattle.lam_make.specs.Made.{next, number_in};

/// What a state is multiplied by.
const FACTOR: u64 = 6_364_136_223_846_793_005;

/// What is added to it then.
const STEP: u64 = 1_442_695_040_888_963_407;

/// The state that follows a state.
pub(crate) fn next(x: u64) -> u64
    ensures { result ≡ next x }
{
    x.wrapping_mul(FACTOR).wrapping_add(STEP)
}

/// The number in a state, below 1000.
pub(crate) fn number_in(x: u64) -> u64
    ensures { result ≡ number_in x }
{
    (x >> 33) % 1000
}
