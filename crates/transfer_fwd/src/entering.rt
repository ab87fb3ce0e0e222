//! What a call gives to the class that it enters.

ghost use Rattle.std.specs.Prelude.{◌≡◌, ◌<◌, IsFalse, IsTrue, Some, length, slice_get, true};
ghost use Rattle.control_points.specs.Checking.{formals_of};
ghost use Rattle.environment.specs.Environments.{cell_count, env_join, is_reachable, started, undefined};
ghost use Rattle.environment.specs.Environments.Environment.{Unreachable};
ghost use Rattle.environment.specs.Kept.{room_of};
ghost use Rattle.interval.specs.Values.{allows_nothing};
ghost use Rattle.pas_program.specs.declared.expr.Actual.TheViews.{out-Actual};
ghost use Rattle.pas_program.specs.declared.routine.Routine.{Routine};
ghost use Rattle.pas_program.specs.Scopes.{is_formal};
ghost use Rattle.pas_program.specs.Tables.{holds_of};
ghost use Rattle.abstract_expr.specs.Standing.{cells_in, seen_in};
ghost use Rattle.transfer_fwd.specs.Crossings.{entry_from, formal_given, formals_given, given, linked_in, may_all_be_undefined, may_be_undefined, passed_value};
ghost use Rattle.transfer_fwd.specs.Standing.{ActualStands};

use crate::crossing::Crossing;
use crate::storing::store;
use alias_class::Bind;
use environment::Env;
use interval::{Itv, Val};
use pas_program::{Actual, VarKind};

/// Whether no value is left.
fn allows_nothing(v: Val) -> bool
    ensures { result ≡ allows_nothing v }
{
    !v.undef && v.itv.is_empty()
}

/// A value that is undefined alone.
fn undefined() -> Val
    ensures { result ≡ undefined }
{
    Val {
        undef: true,
        itv: Itv::EMPTY,
    }
}

fn is_parameter(kind: VarKind) -> bool
    ensures { result ≡ is_formal kind }
{
    matches!(kind, VarKind::Value | VarKind::Var)
}

/// A cell gets the value, or along a further call the value is joined to what it has.
fn give(out: &mut Env, first: bool, cell: u32, v: Val)
    requires { cell < cell_count out.old.env }
    ensures value { out.new.env ≡ given first cell v out.old.env }
    ensures cells { cell_count out.new.env ≡ cell_count out.old.env }
    ensures room { room_of out.new ≡ room_of out.old }
{
    store(out, Bind { whole: first, cell }, v);
}

impl Crossing<'_> {
    ghost use Rattle.transfer_fwd.specs.Crossed.{crossing_of, inside_of, outside_of};

    /// The value of an actual for a value parameter.
    fn passed(&self, left: &Env, formal: u32, actual: &Actual) -> Option<Val>
        requires reached { IsTrue (is_reachable left.now.env) }
        requires left { cell_count left.now.env ≡ cells_in self.now.classes.now self.now.outside }
        requires formal { formal < length self.now.flow.now.program.vars }
        requires stands { ActualStands self.now.flow.now.program (seen_in self.now.classes.now self.now.outside) actual.now }
        ensures { result ≡ passed_value (outside_of self.now) left.now.env formal (out-Actual actual.now) }
    {
        self.outside().passed(left, formal, actual)
    }

    /// Whether a value parameter gets no value.
    fn passes_nothing(&self, left: &Env, formal: u32, actual: &Actual) -> bool
        requires reached { IsTrue (is_reachable left.now.env) }
        requires left { cell_count left.now.env ≡ cells_in self.now.classes.now self.now.outside }
        requires formal { formal < length self.now.flow.now.program.vars }
        requires stands { ActualStands self.now.flow.now.program (seen_in self.now.classes.now self.now.outside) actual.now }
        ensures { result ≡ holds_of allows_nothing (passed_value (outside_of self.now) left.now.env formal (out-Actual actual.now)) }
    {
        match self.passed(left, formal, actual) {
            Some(v) => allows_nothing(v),
            None => false,
        }
    }

    /// Whether each value parameter gets something.
    fn is_passed(&self, left: &Env) -> bool
        requires reached { IsTrue (is_reachable left.now.env) }
        requires left { cell_count left.now.env ≡ cells_in self.now.classes.now self.now.outside }
        ensures { result ≡ is_reachable (formals_given true (outside_of self.now) (inside_of self.now) left.now.env self.now.actuals.now (crossing_of self.now).formals (started 0)) }
    {
        self.stands();
        let formals = self.outside().scope.formals(self.routine);
        for (actual, formal) in self.actuals.iter().zip(formals) {
            if self.passes_nothing(left, *formal, actual) {
                return false;
            }
        }
        true
    }

    /// Joins the environment at the entry to `out`, where `left` is what the call leaves of its own.
    pub(crate) fn join_entry(&self, left: &Env, out: &mut Env)
        requires left { cell_count left.now.env ≡ cells_in self.now.classes.now self.now.outside }
        requires out { cell_count out.old.env ≡ cells_in self.now.classes.now self.now.inside }
        ensures value { out.new.env ≡ env_join out.old.env (entry_from (crossing_of self.now) left.now.env) }
        ensures cells { cell_count out.new.env ≡ cell_count out.old.env }
        ensures room { room_of out.new ≡ room_of out.old }
    {
        if !self.is_entered(left) {
            return;
        }
        if out.reachable() {
            self.enter_again(left, out);
        } else {
            self.enter_first(left, out);
        }
    }

    /// Whether the entry is reached.
    fn is_entered(&self, left: &Env) -> bool
        requires left { cell_count left.now.env ≡ cells_in self.now.classes.now self.now.outside }
        ensures entry { result ≡ is_reachable (entry_from (crossing_of self.now) left.now.env) }
        ensures left { IsTrue result → IsTrue (is_reachable left.now.env) }
        ensures nowhere { IsFalse result → entry_from (crossing_of self.now) left.now.env ≡ Unreachable (cells_in self.now.classes.now self.now.inside) }
    {
        self.shares();
        left.reachable() && self.is_passed(left)
    }

    /// The environment at the entry, along the first call that reaches it.
    fn enter_first(&self, left: &Env, out: &mut Env)
        requires reached { IsTrue (is_reachable left.now.env) }
        requires left { cell_count left.now.env ≡ cells_in self.now.classes.now self.now.outside }
        requires out { cell_count out.old.env ≡ cells_in self.now.classes.now self.now.inside }
        ensures value { out.new.env ≡ entry_from (crossing_of self.now) left.now.env }
        ensures cells { cell_count out.new.env ≡ cell_count out.old.env }
        ensures room { room_of out.new ≡ room_of out.old }
    {
        out.start();
        self.give_links(true, left, out);
        self.give_formals(true, left, out);
    }

    /// The same, joined to what came along calls before: each cell of the class that is entered is joined once.
    fn enter_again(&self, left: &Env, out: &mut Env)
        requires reached { IsTrue (is_reachable left.now.env) }
        requires again { IsTrue (is_reachable out.old.env) }
        requires entry { IsTrue (is_reachable (entry_from (crossing_of self.now) left.now.env)) }
        requires left { cell_count left.now.env ≡ cells_in self.now.classes.now self.now.outside }
        requires out { cell_count out.old.env ≡ cells_in self.now.classes.now self.now.inside }
        ensures value { out.new.env ≡ env_join out.old.env (entry_from (crossing_of self.now) left.now.env) }
        ensures cells { cell_count out.new.env ≡ cell_count out.old.env }
        ensures room { room_of out.new ≡ room_of out.old }
    {
        self.shares();
        self.give_links(false, left, out);
        self.give_formals(false, left, out);
        self.leave_undefined(out);
    }

    /// The cells that are linked get the values that they have in the calling class.
    fn give_links(&self, first: bool, left: &Env, out: &mut Env)
        requires reached { IsTrue (is_reachable left.now.env) }
        requires left { cell_count left.now.env ≡ cells_in self.now.classes.now self.now.outside }
        requires out { cell_count out.old.env ≡ cells_in self.now.classes.now self.now.inside }
        ensures value { out.new.env ≡ linked_in first left.now.env self.now.links.now out.old.env }
        ensures cells { cell_count out.new.env ≡ cell_count out.old.env }
        ensures room { room_of out.new ≡ room_of out.old }
    {
        self.shares();
        for link in self.links {
            give(out, first, link.callee, left.get(link.caller));
        }
    }

    /// The value parameters get the values of their actuals.
    fn give_formals(&self, first: bool, left: &Env, out: &mut Env)
        requires reached { IsTrue (is_reachable left.now.env) }
        requires left { cell_count left.now.env ≡ cells_in self.now.classes.now self.now.outside }
        requires out { cell_count out.old.env ≡ cells_in self.now.classes.now self.now.inside }
        ensures value { out.new.env ≡ formals_given first (outside_of self.now) (inside_of self.now) left.now.env self.now.actuals.now (crossing_of self.now).formals out.old.env }
        ensures cells { cell_count out.new.env ≡ cell_count out.old.env }
        ensures room { room_of out.new ≡ room_of out.old }
    {
        self.stands();
        self.names_seen();
        let formals = self.outside().scope.formals(self.routine);
        for (actual, formal) in self.actuals.iter().zip(formals) {
            self.give_formal(first, left, out, *formal, actual);
        }
    }

    fn give_formal(&self, first: bool, left: &Env, out: &mut Env, formal: u32, actual: &Actual)
        requires reached { IsTrue (is_reachable left.now.env) }
        requires left { cell_count left.now.env ≡ cells_in self.now.classes.now self.now.outside }
        requires out { cell_count out.old.env ≡ cells_in self.now.classes.now self.now.inside }
        requires formal { formal < length self.now.flow.now.program.vars }
        requires seen { (seen_in self.now.classes.now self.now.inside).variable formal ≡ true }
        requires stands { ActualStands self.now.flow.now.program (seen_in self.now.classes.now self.now.outside) actual.now }
        ensures value { out.new.env ≡ formal_given first (inside_of self.now) formal (passed_value (outside_of self.now) left.now.env formal (out-Actual actual.now)) out.old.env }
        ensures cells { cell_count out.new.env ≡ cell_count out.old.env }
        ensures room { room_of out.new ≡ room_of out.old }
    {
        if let Some(v) = self.passed(left, formal, actual) {
            give(out, first, self.inside().bind(formal).cell, v);
        }
    }

    /// Along a further call all other variables of the routine may be undefined.
    fn leave_undefined(&self, out: &mut Env)
        requires out { cell_count out.old.env ≡ cells_in self.now.classes.now self.now.inside }
        ensures value { (d : Routine) → slice_get self.now.flow.now.program.routines self.now.routine ≡ Some d → out.new.env ≡ may_all_be_undefined (inside_of self.now) d.vars out.old.env }
        ensures cells { cell_count out.new.env ≡ cell_count out.old.env }
        ensures room { room_of out.new ≡ room_of out.old }
    {
        self.stands();
        self.names_seen();
        for var in self.flow.program().routine(self.routine).vars.as_slice() {
            self.leave_one(out, *var);
        }
    }

    fn leave_one(&self, out: &mut Env, var: u32)
        requires var { var < length self.now.flow.now.program.vars }
        requires seen { (seen_in self.now.classes.now self.now.inside).variable var ≡ true }
        requires out { cell_count out.old.env ≡ cells_in self.now.classes.now self.now.inside }
        ensures value { out.new.env ≡ may_be_undefined (inside_of self.now) var out.old.env }
        ensures cells { cell_count out.new.env ≡ cell_count out.old.env }
        ensures room { room_of out.new ≡ room_of out.old }
    {
        if !is_parameter(self.flow.program().var_def(var).kind) {
            give(out, false, self.inside().bind(var).cell, undefined());
        }
    }
}
