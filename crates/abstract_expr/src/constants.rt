//! Whether the numbers of an interval are constants of a `case`.
ghost use Rattle.std.specs.Prelude.{◌≡◌, ◌<◌, count_by, length};
ghost use Rattle.control_points.specs.Judgements.{constants_at, constants_of};
ghost use Rattle.interval.specs.Intervals.{is_in};
ghost use Rattle.abstract_expr.specs.Verdicts.{is_chosen};
ghost use Rattle.std.specs.Prelude.{Some};

use control_points::{Act, Flow, constants_of_a_case_differ};
use interval::Itv;

/// Whether each number of an interval is a constant of an arm that leaves a point. The constants of one `case` differ, so it is enough to count
/// those that lie in the interval.
pub(crate) fn are_constants(flow: &Flow, point: u32, x: Itv) -> bool
    requires { point < length flow.now.points }
    ensures { result ≡ is_chosen (constants_at flow.now.edges point) x }
{
    constants_of_a_case_differ();
    if x.is_empty() {
        return true;
    }
    let mut chosen: u64 = 0;
    for edge in flow.outgoing(point) {
        chosen += constants_in(&flow.edges()[*edge as usize].act, x);
    }
    chosen == u64::from(x.hi.abs_diff(x.lo)) + 1
}

/// How many constants of an arm lie in an interval.
fn constants_in(act: &Act, x: Itv) -> u64
    ensures { result ≡ count_by (is_in x) (constants_of (Some act.now)) }
{
    match act {
        Act::Arm { consts, .. } => count_in(consts.as_slice(), x),
        _ => 0,
    }
}

/// How many numbers lie in an interval.
fn count_in(numbers: &[i32], x: Itv) -> u64
    ensures { result ≡ count_by (is_in x) numbers.now }
{
    let mut count = 0;
    for number in numbers {
        if x.contains(*number) {
            count += 1;
        }
    }
    count
}
