//! The judge of a point: a scope, and an environment that is reached.
ghost use Rattle.std.specs.Prelude.{◌≡◌, IsTrue};
ghost use Rattle.environment.specs.Environments.{cell_count, is_reachable};
ghost use Rattle.abstract_expr.specs.Standing.{cells_in};

use crate::scope::Scope;
use environment::Env;

/// Judges parts of an action at a point, in the order of evaluation.
#[derive(Clone, Copy)]
pub(crate) struct Judge<'a> {
    /// Where the action stands.
    pub scope: Scope<'a>,
    /// What each cell may hold at the point.
    pub env: &'a Env,
    /// The number of the point.
    pub point: u32,
    pub ghost reached: { IsTrue (is_reachable env.now.env) },
    pub ghost cells: { cell_count env.now.env ≡ cells_in scope.names.classes.now scope.names.class },
}
