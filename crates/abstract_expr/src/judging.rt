//! Verdicts on the checks of a point.
ghost use Rattle.std.specs.Prelude.{◌≡◌, ◌<◌, Some, drop, length, slice_get, true};
ghost use Rattle.alias_class.specs.Outlines.{outline_of};
ghost use Rattle.control_points.specs.declared.check.Check.{Check};
ghost use Rattle.control_points.specs.Flows.{chart_of};
ghost use Rattle.control_points.specs.Judgements.{Judgement, constants_at, judgement_of, point_judgements};
ghost use Rattle.environment.specs.Environments.{cell_count, env_below};
ghost use Rattle.environment.specs.Kept.{room_of};
ghost use Rattle.abstract_expr.specs.Standing.{cells_in, scope_in};
ghost use Rattle.abstract_expr.specs.Verdicts.{StandsAt, check_holds, holds_at, marks_with, verdict_of};

use crate::names::Names;
use crate::scope::Scope;
use crate::tally::Tally;
use crate::verdict::Verdict;
use alias_class::Classes;
use control_points::{Flow, each_check_is_judged};
use environment::Env;

/// The verdict of a test.
fn verdict_of(holds: bool) -> Verdict
    ensures { result ≡ verdict_of holds }
{
    if holds {
        Verdict::Holds
    } else {
        Verdict::MayFail
    }
}

/// Whether a check can fail from an environment at its point, in a class of its routine. It uses the environment as scratch, and leaves it below
/// what it was. The time is linear in what is evaluated at the point.
pub fn check_of(env: &mut Env, flow: &Flow, classes: &Classes, class: u32, check: u32) -> Verdict
    requires check { check < length flow.now.checks }
    requires stands { (d : Check) → slice_get flow.now.checks check ≡ Some d → StandsAt flow.now classes.now class d.point }
    requires cells { cell_count env.old.env ≡ cells_in classes.now class }
    ensures verdict { (d : Check) (j : Judgement) → slice_get flow.now.checks check ≡ Some d → judgement_of (chart_of flow.now) flow.now.checks check ≡ Some j → result ≡ verdict_of (check_holds (scope_in flow.now classes.now class) (constants_at flow.now.edges d.point) env.old.env j) }
    ensures below { env_below env.new.env env.old.env ≡ true }
    ensures cells { cell_count env.new.env ≡ cell_count env.old.env }
    ensures room { room_of env.new ≡ room_of env.old }
{
    each_check_is_judged();
    let point = flow.checks()[check as usize].point;
    let before = check as usize - flow.checks_at(point).start;
    let scope = scope_of(flow, classes, class);
    let mut marks = [false];
    mark_from(env, &scope, point, before, &mut marks);
    verdict_of(!marks[0])
}

/// Marks of the checks of a point, of which there is one mark each, those that may fail from an environment there, in a class of the point's
/// routine. A mark that was put stays. It uses the environment as scratch, and leaves it below what it was. The time is linear in what is
/// evaluated at the point.
pub fn mark_open(
    env: &mut Env,
    flow: &Flow,
    classes: &Classes,
    class: u32,
    point: u32,
    marks: &mut [bool],
)
    requires point { point < length flow.now.points }
    requires stands { StandsAt flow.now classes.now class point }
    requires cells { cell_count env.old.env ≡ cells_in classes.now class }
    requires long { length marks.old ≡ length (point_judgements (chart_of flow.now) point) }
    ensures marks { marks.new ≡ marks_with marks.old (holds_at flow.now classes.now class point env.old.env) }
    ensures below { env_below env.new.env env.old.env ≡ true }
    ensures cells { cell_count env.new.env ≡ cell_count env.old.env }
    ensures room { room_of env.new ≡ room_of env.old }
{
    let scope = scope_of(flow, classes, class);
    mark_from(env, &scope, point, 0, marks);
}

/// The scope of a class, with what it is made of.
fn scope_of<'a>(flow: &'a Flow, classes: &'a Classes, class: u32) -> Scope<'a>
    requires class { class < length classes.now.classes }
    requires outline { classes.now.outline ≡ outline_of flow.now }
    ensures flow { result.flow.now ≡ flow.now }
    ensures classes { result.names.classes.now ≡ classes.now }
    ensures class { result.names.class ≡ class }
{
    Scope {
        flow,
        names: Names { classes, class },
    }
}

/// The same for the checks of a point from a rank on.
fn mark_from(env: &mut Env, scope: &Scope, point: u32, before: usize, marks: &mut [bool])
    requires point { point < length scope.now.flow.now.points }
    requires stands { StandsAt scope.now.flow.now scope.now.names.classes.now scope.now.names.class point }
    requires cells { cell_count env.old.env ≡ cells_in scope.now.names.classes.now scope.now.names.class }
    ensures marks { marks.new ≡ marks_with marks.old (drop before (holds_at scope.now.flow.now scope.now.names.classes.now scope.now.names.class point env.old.env)) }
    ensures below { env_below env.new.env env.old.env ≡ true }
    ensures cells { cell_count env.new.env ≡ cell_count env.old.env }
    ensures room { room_of env.new ≡ room_of env.old }
{
    if env.reachable() {
        scope.judge_point(&mut Tally::new(before), marks, env, point);
    }
}
