//! The interval of an expression's value.
ghost use Rattle.std.specs.Prelude.{◌≡◌, ◌<◌, length, true, IsTrue};
ghost use Rattle.alias_class.specs.Cells.{is_seen, resolve_access};
ghost use Rattle.environment.specs.Environments.{cell_count, is_reachable, value_at};
ghost use Rattle.pas_program.specs.Each.{each_access, each_expr};
ghost use Rattle.abstract_expr.specs.Expressions.{reached_value, value_in};
ghost use Rattle.abstract_expr.specs.Standing.{binds, cells_in, class_in, seen_in};

use alias_class::{Bind, Classes};
use environment::Env;
use interval::{Itv, Val, binary, unary};
use pas_program::{Access, Expr, ExprForm};

/// The class in which names stand for cells.
#[derive(Clone, Copy)]
pub struct Names<'a> {
    /// The classes of an unfolding.
    pub classes: &'a Classes,
    /// The number of the class.
    pub class: u32,
    pub ghost in_range: { class < length classes.now.classes },
}

impl Names<'_> {
    /// What the name of a variable stands for.
    pub(crate) fn bind(&self, var: u32) -> Bind
        requires seen { is_seen self.now.classes.now.outline (class_in self.now.classes.now self.now.class) var ≡ true }
        ensures value { result ≡ binds self.now.classes.now self.now.class var }
        ensures in_range { result.cell < cells_in self.now.classes.now self.now.class }
    {
        self.classes.resolve(self.class, var)
    }

    /// What an access stands for; with subscripts, a part.
    pub(crate) fn target(&self, access: &Access) -> Bind
        requires { each_access (seen_in self.now.classes.now self.now.class) access.now ≡ true }
        ensures value { result ≡ resolve_access self.now.classes.now.outline (class_in self.now.classes.now self.now.class) access.now }
        ensures in_range { result.cell < cells_in self.now.classes.now self.now.class }
    {
        self.classes.resolve_access(self.class, access)
    }

    /// What the cell of a variable may hold.
    pub(crate) fn held(&self, env: &Env, var: u32) -> Val
        requires reached { IsTrue (is_reachable env.now.env) }
        requires cells { cell_count env.now.env ≡ cells_in self.now.classes.now self.now.class }
        requires seen { is_seen self.now.classes.now.outline (class_in self.now.classes.now self.now.class) var ≡ true }
        ensures { result ≡ value_at env.now.env (binds self.now.classes.now self.now.class var).cell }
    {
        env.get(self.bind(var).cell)
    }

    /// The interval of a value, where the environment is reached.
    pub(crate) fn value(&self, env: &Env, e: &Expr) -> Itv
        requires reached { IsTrue (is_reachable env.now.env) }
        requires cells { cell_count env.now.env ≡ cells_in self.now.classes.now self.now.class }
        requires seen { each_expr (seen_in self.now.classes.now self.now.class) e.now ≡ true }
        ensures { result ≡ reached_value (binds self.now.classes.now self.now.class) env.now.env e.now }
    {
        match &e.form {
            ExprForm::Const { value, .. } => Itv::between(i64::from(*value), i64::from(*value)),
            ExprForm::Value(access) => self.held(env, access.var).itv,
            ExprForm::Unary { op, of, .. } => unary(*op, self.value(env, of.get())).value,
            ExprForm::Binary {
                op,
                left,
                right,
                ..
            } => {
                let x = self.value(env, left.get());
                let y = self.value(env, right.get());
                binary(*op, x, y).value
            }
            ExprForm::Call { slot, .. } => self.held(env, *slot).itv,
        }
    }
}

/// The interval of an expression's value, which is empty where the environment is not reached. The time is linear in the expression.
pub fn eval(env: &Env, classes: &Classes, class: u32, e: &Expr) -> Itv
    requires class { class < length classes.now.classes }
    requires cells { cell_count env.now.env ≡ cells_in classes.now class }
    requires seen { each_expr (seen_in classes.now class) e.now ≡ true }
    ensures { result ≡ value_in (binds classes.now class) env.now.env e.now }
{
    if !env.reachable() {
        return Itv::EMPTY;
    }
    Names { classes, class }.value(env, e)
}
