//! Parts of an interval.
ghost use Rattle.std.specs.Prelude.{◌≡◌, ◌+ℤ◌, ◌-ℤ◌, pos, if◌then◌else◌};
ghost use Rattle.interval_back.specs.Backward.{within, trimmed};

use interval::Itv;

/// The greatest number of the language; the least one is its negative.
pub const MAXINT: i64 = 2_147_483_647;

/// The numbers of `x` from `lo` to `hi`.
#[tactic(auto, unfolding(crate::specs::Backward::within))]
pub fn within(lo: i64, hi: i64, x: Itv) -> Itv
    ensures { result ≡ within lo hi x }
{
    Itv::between(lo.max(i64::from(x.lo)), hi.min(i64::from(x.hi)))
}

/// `x` without its least number where `low` says so, and without its greatest one where `high` does.
pub fn trimmed(low: bool, high: bool, x: Itv) -> Itv
    ensures { result ≡ trimmed low high x }
{
    Itv::between(low_end(low, x), high_end(high, x))
}

fn low_end(trimmed: bool, x: Itv) -> i64
    ensures { result ≡ (if trimmed then x.lo +ℤ pos 1 else x.lo) }
{
    if trimmed {
        i64::from(x.lo) + 1
    } else {
        i64::from(x.lo)
    }
}

fn high_end(trimmed: bool, x: Itv) -> i64
    ensures { result ≡ (if trimmed then x.hi -ℤ pos 1 else x.hi) }
{
    if trimmed {
        i64::from(x.hi) - 1
    } else {
        i64::from(x.hi)
    }
}
