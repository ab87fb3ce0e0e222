//! The checks of a point: those of its assertions, and those of what leaves it.
ghost use Rattle.std.specs.Prelude.{◌≡◌, ℕ, ◌<◌, IsTrue, false, length, true};
ghost use Rattle.alias_class.specs.Cells.{IsClass, routine_of};
ghost use Rattle.control_points.specs.Flows.{chart_of};
ghost use Rattle.control_points.specs.Judgements.{act_judgements, own_judgements, point_judgements};
ghost use Rattle.control_points.specs.Leading.{is_exit, is_return};
ghost use Rattle.environment.specs.Environments.{cell_count, env_below, is_reachable};
ghost use Rattle.environment.specs.Kept.{room_of};
ghost use Rattle.abstract_expr.specs.Standing.{class_in};

use crate::bounds::Bounds;
use crate::judge::Judge;
use crate::scope::Scope;
use crate::tables::var_type;
use crate::tally::Tally;
use control_points::{Act, PointKind, assertions_are_of_their_routine};
use environment::Env;

impl Scope<'_> {
    ghost use Rattle.abstract_expr.specs.Judging.{ActStands, after_point};
    ghost use Rattle.abstract_expr.specs.Scopes.{cells_of};
    ghost use Rattle.abstract_expr.specs.Tallies.{tallied};
    ghost use Rattle.abstract_expr.specs.Verdicts.{StandsAt};

    /// All checks of a point.
    pub(crate) fn judge_point(
        &self,
        tally: &mut Tally,
        marks: &mut [bool],
        env: &mut Env,
        point: u32,
    )
        requires point { point < length self.now.flow.now.points }
        requires stands { StandsAt self.now.flow.now self.now.names.classes.now self.now.names.class point }
        requires reached { IsTrue (is_reachable env.old.env) }
        requires cells { cell_count env.old.env ≡ cells_of self.now }
        ensures verdicts { tallied tally.new marks.new ≡ after_point self.now point env.old.env (point_judgements (chart_of self.now.flow.now) point) (tallied tally.old marks.old) }
        ensures below { env_below env.new.env env.old.env ≡ true }
        ensures cells { cell_count env.new.env ≡ cell_count env.old.env }
        ensures room { room_of env.new ≡ room_of env.old }
    {
        assertions_are_of_their_routine();
        let judge = Judge {
            scope: *self,
            env: &*env,
            point,
        };
        let routine = self.names.classes.routine(self.names.class);
        judge.assertions(tally, marks, self.flow.asserts_at(point));
        self.judge_leaving(tally, marks, env, point, routine);
    }

    /// What leaves a point: at an exit the result of a function, and else the action.
    fn judge_leaving(
        &self,
        tally: &mut Tally,
        marks: &mut [bool],
        env: &mut Env,
        point: u32,
        routine: u32,
    )
        requires point { point < length self.now.flow.now.points }
        requires stands { StandsAt self.now.flow.now self.now.names.classes.now self.now.names.class point }
        requires class { IsClass self.now.names.classes.now.outline (class_in self.now.names.classes.now self.now.names.class) }
        requires routine { routine ≡ routine_of self.now.names.classes.now.outline (class_in self.now.names.classes.now self.now.names.class) }
        requires reached { IsTrue (is_reachable env.old.env) }
        requires cells { cell_count env.old.env ≡ cells_of self.now }
        ensures verdicts { tallied tally.new marks.new ≡ after_point self.now point env.old.env (own_judgements (chart_of self.now.flow.now) point) (tallied tally.old marks.old) }
        ensures below { env_below env.new.env env.old.env ≡ true }
        ensures cells { cell_count env.new.env ≡ cell_count env.old.env }
        ensures room { room_of env.new ≡ room_of env.old }
    {
        if is_exit(self.flow.points()[point as usize].kind) {
            let judge = Judge {
                scope: *self,
                env: &*env,
                point,
            };
            judge.result(tally, marks, routine);
        } else if let [first, ..] = self.flow.outgoing(point) {
            self.judge_action(
                tally,
                marks,
                env,
                point,
                &self.flow.edges()[*first as usize].act,
            );
        }
    }

    /// The action of an edge that leaves a point, which is no return.
    fn judge_action(
        &self,
        tally: &mut Tally,
        marks: &mut [bool],
        env: &mut Env,
        point: u32,
        act: &Act,
    )
        requires point { point < length self.now.flow.now.points }
        requires stands { ActStands self.now act.now }
        requires stays { is_return act.now ≡ false }
        requires reached { IsTrue (is_reachable env.old.env) }
        requires cells { cell_count env.old.env ≡ cells_of self.now }
        ensures verdicts { (place : ℕ) → tallied tally.new marks.new ≡ after_point self.now point env.old.env (act_judgements (chart_of self.now.flow.now) place act.now) (tallied tally.old marks.old) }
        ensures below { env_below env.new.env env.old.env ≡ true }
        ensures cells { cell_count env.new.env ≡ cell_count env.old.env }
        ensures room { room_of env.new ≡ room_of env.old }
    {
        match act {
            Act::Enter {
                control,
                first,
                down,
                last,
                ..
            } => {
                let bounds = Bounds {
                    of_type: var_type(self.program(), *control),
                    first,
                    down: *down,
                    last,
                };
                self.judge_bounds(tally, marks, env, point, &bounds);
            }
            Act::Bypass {
                control,
                first,
                down,
                last,
                ..
            } => {
                let bounds = Bounds {
                    of_type: var_type(self.program(), *control),
                    first,
                    down: *down,
                    last,
                };
                self.judge_bounds(tally, marks, env, point, &bounds);
            }
            _ => {
                let judge = Judge {
                    scope: *self,
                    env: &*env,
                    point,
                };
                judge.action(tally, marks, act);
            }
        }
    }
}

/// Whether a point is the exit of a routine.
fn is_exit(kind: PointKind) -> bool
    ensures { result ≡ is_exit kind }
{
    matches!(kind, PointKind::Exit)
}
