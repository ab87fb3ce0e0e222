//! What is left of an environment where an expression is wanted in an interval.
ghost use Rattle.std.specs.Prelude.{◌≡◌, ◌<◌, ◌&&◌, IsFalse, IsTrue, None, Some, length, true, if◌then◌else◌};
ghost use Rattle.alias_class.specs.Outlines.{outline_of};
ghost use Rattle.environment.specs.Environments.{after_set, cell_count, is_reachable};
ghost use Rattle.environment.specs.Environments.Environment.{Unreachable};
ghost use Rattle.environment.specs.Kept.{room_of};
ghost use Rattle.interval.specs.Intervals.{is_empty, meet};
ghost use Rattle.pas_program.specs.declared.expr.Actual.TheViews.{out-Expr};
ghost use Rattle.pas_program.specs.Checked.{numbers_in, tables};
ghost use Rattle.pas_program.specs.Each.{each_access, each_expr};
ghost use Rattle.pas_program.specs.Typed.{hosted, reached};
ghost use Rattle.abstract_expr.specs.Expressions as meaning;
ghost use Rattle.abstract_expr.specs.Expressions.{defined_in, indexed, names_related, operator_refined, related, refined, refined_form, truth_of, variable_refined, wanted_of};
ghost use Rattle.abstract_expr.specs.Scopes.{AccessStands, Stands, cells_of, program_of, scope_of, seen_of};
ghost use Rattle.abstract_expr.specs.Standing.{cells_in, scope_in, seen_in};

use crate::scope::{Scope, truth};
use crate::tables::{range_of, type_at};
use alias_class::{Bind, Classes};
use control_points::Flow;
use environment::Env;
use interval::{Itv, Val, binary};
use interval_back::{binary_back, unary_back};
use lattice::Lattice;
use pas_program::{Access, Expr, ExprForm, TypeDef};
use px_base::BinOp;

/// All of a cell is defined, and holds one of the numbers.
fn define(env: &mut Env, cell: u32, itv: Itv)
    requires reached { IsTrue (is_reachable env.old.env) }
    requires cell { cell < cell_count env.old.env }
    ensures value { env.new.env ≡ defined_in cell itv env.old.env }
    ensures cells { cell_count env.new.env ≡ cell_count env.old.env }
    ensures room { room_of env.new ≡ room_of env.old }
{
    env.set(cell, Val { undef: false, itv });
}

/// What is left of the wanted numbers where these are met with a value; where nothing is left, the environment is not reached.
fn meet_wanted(env: &mut Env, wanted: Itv, value: Itv) -> Option<Itv>
    ensures left { result ≡ if is_empty (meet wanted value) then None else Some (meet wanted value) }
    ensures value { env.new.env ≡ if is_empty (meet wanted value) then Unreachable (cell_count env.old.env) else env.old.env }
    ensures cells { cell_count env.new.env ≡ cell_count env.old.env }
    ensures room { room_of env.new ≡ room_of env.old }
{
    let left = wanted.meet(value);
    if left.is_empty() {
        env.set_bottom();
        return None;
    }
    Some(left)
}

impl Scope<'_> {
    /// Leaves of an environment what lets an expression give a wanted number without error.
    #[cycle(refine)]
    pub fn refine(&self, env: &mut Env, e: &Expr, wanted: Itv)
        requires cells { cell_count env.old.env ≡ cells_of self.now }
        requires numbers { each_expr (numbers_in (program_of self.now)) e.now ≡ true }
        requires types { (hosted (tables (program_of self.now)) e.now).fits ≡ true }
        requires seen { each_expr (seen_of self.now) e.now ≡ true }
        ensures value { env.new.env ≡ refined (scope_of self.now) e.now wanted env.old.env }
        ensures cells { cell_count env.new.env ≡ cell_count env.old.env }
        ensures room { room_of env.new ≡ room_of env.old }
    {
        if !env.reachable() {
            return;
        }
        let value = self.names.value(env, e);
        if let Some(left) = meet_wanted(env, wanted, value) {
            self.refine_form(env, e, left);
        }
    }

    /// The same, where the wanted numbers are some of those that the expression may give.
    #[cycle(refine)]
    fn refine_form(&self, env: &mut Env, e: &Expr, wanted: Itv)
        requires reached { IsTrue (is_reachable env.old.env) }
        requires cells { cell_count env.old.env ≡ cells_of self.now }
        requires numbers { each_expr (numbers_in (program_of self.now)) e.now ≡ true }
        requires types { (hosted (tables (program_of self.now)) e.now).fits ≡ true }
        requires seen { each_expr (seen_of self.now) e.now ≡ true }
        ensures value { env.new.env ≡ refined_form (scope_of self.now) (out-Expr e.now).form wanted env.old.env }
        ensures cells { cell_count env.new.env ≡ cell_count env.old.env }
        ensures room { room_of env.new ≡ room_of env.old }
    {
        match &e.form {
            ExprForm::Const { .. } => {}
            ExprForm::Value(access) => self.refine_variable(env, access, wanted),
            ExprForm::Unary { op, of, .. } => {
                let x = self.names.value(env, of.get());
                self.refine(env, of.get(), unary_back(*op, wanted, x));
            }
            ExprForm::Binary {
                op,
                left,
                right,
                ..
            } => self.refine_operands(env, *op, left.get(), right.get(), wanted),
            ExprForm::Call { slot, .. } => define(env, self.bind(*slot).cell, wanted),
        }
    }

    /// What is wanted of both comes from the environment before either operand is refined.
    #[cycle(refine)]
    fn refine_operands(&self, env: &mut Env, op: BinOp, left: &Expr, right: &Expr, wanted: Itv)
        requires reached { IsTrue (is_reachable env.old.env) }
        requires cells { cell_count env.old.env ≡ cells_of self.now }
        requires left { Stands self.now left.now }
        requires right { Stands self.now right.now }
        ensures value { env.new.env ≡ operator_refined (scope_of self.now) op left.now right.now wanted env.old.env }
        ensures cells { cell_count env.new.env ≡ cell_count env.old.env }
        ensures room { room_of env.new ≡ room_of env.old }
    {
        let x = self.names.value(env, left);
        let y = self.names.value(env, right);
        let (wanted_left, wanted_right) = binary_back(op, wanted, x, y);
        self.refine(env, left, wanted_left);
        self.refine(env, right, wanted_right);
    }

    /// A variable that names a whole cell is defined; a part of a cell leaves its cell.
    #[cycle(refine)]
    fn refine_variable(&self, env: &mut Env, access: &Access, wanted: Itv)
        requires reached { IsTrue (is_reachable env.old.env) }
        requires cells { cell_count env.old.env ≡ cells_of self.now }
        requires numbers { each_access (numbers_in (program_of self.now)) access.now ≡ true }
        requires types { (reached (tables (program_of self.now)) access.now).fits ≡ true }
        requires seen { each_access (seen_of self.now) access.now ≡ true }
        ensures value { env.new.env ≡ variable_refined (scope_of self.now) access.now (indexed (scope_of self.now) access.now) wanted env.old.env }
        ensures cells { cell_count env.new.env ≡ cell_count env.old.env }
        ensures room { room_of env.new ≡ room_of env.old }
    {
        let target = self.target(access);
        if target.whole {
            define(env, target.cell, wanted);
        } else {
            self.refine_subscripts(env, access);
        }
    }

    /// Each subscript is wanted in its index range, from left to right.
    #[cycle(refine)]
    pub fn refine_subscripts(&self, env: &mut Env, access: &Access)
        requires cells { cell_count env.old.env ≡ cells_of self.now }
        requires numbers { each_access (numbers_in (program_of self.now)) access.now ≡ true }
        requires types { (reached (tables (program_of self.now)) access.now).fits ≡ true }
        requires seen { each_access (seen_of self.now) access.now ≡ true }
        ensures value { env.new.env ≡ indexed (scope_of self.now) access.now env.old.env }
        ensures cells { cell_count env.new.env ≡ cell_count env.old.env }
        ensures room { room_of env.new ≡ room_of env.old }
    {
        let mut of_type = self.var_type(access.var);
        for subscript in access.subscripts.as_slice() {
            match self.program().type_def(of_type) {
                TypeDef::Array { index, element } => {
                    self.refine(env, subscript, range_of(type_at(self.program(), index)));
                    of_type = element;
                }
                TypeDef::Scalar { .. } => unreachable!(),
            }
        }
    }

    /// The relation of two expressions has the truth.
    pub fn refine_relation(&self, env: &mut Env, op: BinOp, left: &Expr, right: &Expr, holds: bool)
        requires cells { cell_count env.old.env ≡ cells_of self.now }
        requires left { Stands self.now left.now }
        requires right { Stands self.now right.now }
        ensures value { env.new.env ≡ related (scope_of self.now) op left.now right.now (truth_of holds) env.old.env }
        ensures cells { cell_count env.new.env ≡ cell_count env.old.env }
        ensures room { room_of env.new ≡ room_of env.old }
    {
        if !env.reachable() {
            return;
        }
        let x = self.names.value(env, left);
        let y = self.names.value(env, right);
        if let Some(wanted) = meet_wanted(env, truth(holds), binary(op, x, y).value) {
            self.refine_operands(env, op, left, right, wanted);
        }
    }

    /// The relation of two variables that name whole cells has the truth.
    pub fn refine_names(&self, env: &mut Env, op: BinOp, names: (u32, u32), holds: bool)
        requires cells { cell_count env.old.env ≡ cells_of self.now }
        requires left { (seen_of self.now).variable names.0 ≡ true }
        requires right { (seen_of self.now).variable names.1 ≡ true }
        ensures value { env.new.env ≡ names_related (scope_of self.now) op names.0 names.1 (truth_of holds) env.old.env }
        ensures cells { cell_count env.new.env ≡ cell_count env.old.env }
        ensures room { room_of env.new ≡ room_of env.old }
    {
        if !env.reachable() {
            return;
        }
        let left = self.bind(names.0).cell;
        let right = self.bind(names.1).cell;
        let x = env.get(left).itv;
        let y = env.get(right).itv;
        if let Some(wanted) = meet_wanted(env, truth(holds), binary(op, x, y).value) {
            let (wanted_left, wanted_right) = binary_back(op, wanted, x, y);
            refine_cell(env, left, wanted_left);
            refine_cell(env, right, wanted_right);
        }
    }
}

/// A whole cell is defined, and holds one of the wanted numbers.
fn refine_cell(env: &mut Env, cell: u32, wanted: Itv)
    requires cell { cell < cell_count env.old.env }
    ensures value { env.new.env ≡ wanted_of (meaning.numbers_in env.old.env cell) (defined_in cell) wanted env.old.env }
    ensures cells { cell_count env.new.env ≡ cell_count env.old.env }
    ensures room { room_of env.new ≡ room_of env.old }
{
    if env.reachable() {
        let held = env.get(cell).itv;
        if let Some(left) = meet_wanted(env, wanted, held) {
            define(env, cell, left);
        }
    }
}

/// Leaves of an environment what lets an expression give a wanted number without error.
pub fn refine(env: &mut Env, flow: &Flow, classes: &Classes, class: u32, e: &Expr, wanted: Itv)
    requires class { class < length classes.now.classes }
    requires outline { classes.now.outline ≡ outline_of flow.now }
    requires cells { cell_count env.old.env ≡ cells_in classes.now class }
    requires numbers { each_expr (numbers_in flow.now.program) e.now ≡ true }
    requires types { (hosted (tables flow.now.program) e.now).fits ≡ true }
    requires seen { each_expr (seen_in classes.now class) e.now ≡ true }
    ensures value { env.new.env ≡ refined (scope_in flow.now classes.now class) e.now wanted env.old.env }
    ensures cells { cell_count env.new.env ≡ cell_count env.old.env }
    ensures room { room_of env.new ≡ room_of env.old }
{
    Scope::over(flow, classes, class).refine(env, e, wanted);
}
