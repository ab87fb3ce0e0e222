//! The checks of expressions, variables and parameters, each judged on the environment at the point.
ghost use Rattle.std.specs.Prelude.{◌≡◌, ◌++◌, Some, map, true};
ghost use Rattle.control_points.specs.Judgements as parts;
ghost use Rattle.control_points.specs.Judgements.{access_judgements, actual_judgements, assigned_judgements, expr_judgements, item_judgements, passing_judgements, subscripts_judgements, used_variable, width_judgements, written_judgements};
ghost use Rattle.pas_program.specs.declared.expr.Actual.TheViews.{out-Access, out-Actual};
ghost use Rattle.pas_program.specs.Each.{all_true, each_access, each_actual, each_expr, each_item, each_written};
ghost use Rattle.px_base.specs.declared.kind.Kind.TheVariants.{UndefinedValue};
ghost use Rattle.abstract_expr.specs.Expressions as meaning;
ghost use Rattle.abstract_expr.specs.Expressions.{numbers_in, value_in};
ghost use Rattle.abstract_expr.specs.Judging as judging;
ghost use Rattle.abstract_expr.specs.Judging.{after_parts, beside, known, seen_by};
ghost use Rattle.abstract_expr.specs.Scopes.{scope_of};
ghost use Rattle.abstract_expr.specs.Tallies.{tallied};
ghost use Rattle.abstract_expr.specs.Expressions.{widths};

use crate::judge::Judge;
use crate::tables::{element_type, index_type, is_narrow, range_of, type_at, var_type};
use crate::tally::Tally;
use interval::{Itv, binary, unary};
use pas_program::{Access, Actual, Expr, ExprForm, WriteItem, WriteValue};
use px_base::{BinOp, UnOp};

/// The widths of `write`.
fn widths() -> Itv
    ensures { result ≡ widths }
{
    Itv::between(1, 10_000)
}

/// Whether an operator has a check.
fn is_checked(op: BinOp) -> bool
    ensures { result ≡ judging.is_checked op }
{
    matches!(
        op,
        BinOp::Add | BinOp::Sub | BinOp::Mul | BinOp::Div | BinOp::Mod
    )
}

fn is_checked_alone(op: UnOp) -> bool
    ensures { result ≡ judging.is_checked_alone op }
{
    matches!(
        op,
        UnOp::Sqr | UnOp::SuccInt | UnOp::PredInt | UnOp::SuccBool | UnOp::PredBool
    )
}

impl Judge<'_> {
    /// An expression's checks, and the interval of its value.
    #[cycle(judge)]
    pub fn expr(&self, tally: &mut Tally, marks: &mut [bool], e: &Expr) -> Itv
        requires seen { each_expr (seen_by self.now) e.now ≡ true }
        ensures value { result ≡ value_in (scope_of self.now.scope).bind self.now.env.now.env e.now }
        ensures verdicts { tallied tally.new marks.new ≡ after_parts self.now (expr_judgements (known self.now) e.now) (tallied tally.old marks.old) }
    {
        match &e.form {
            ExprForm::Const { .. } => self.scope.names.value(self.env, e),
            ExprForm::Call { .. } => self.scope.names.value(self.env, e),
            ExprForm::Value(access) => self.used(tally, marks, access),
            ExprForm::Unary { op, of, .. } => {
                let x = self.expr(tally, marks, of.get());
                let answer = unary(*op, x);
                tally.add_if(marks, is_checked_alone(*op), answer.holds);
                answer.value
            }
            ExprForm::Binary {
                op,
                left,
                right,
                ..
            } => {
                let x = self.expr(tally, marks, left.get());
                let y = self.expr(tally, marks, right.get());
                let answer = binary(*op, x, y);
                tally.add_if(marks, is_checked(*op), answer.holds);
                answer.value
            }
        }
    }

    /// A variable whose value is used.
    #[cycle(judge)]
    fn used(&self, tally: &mut Tally, marks: &mut [bool], access: &Access) -> Itv
        requires seen { each_access (seen_by self.now) access.now ≡ true }
        ensures value { result ≡ numbers_in self.now.env.now.env (meaning.target (scope_of self.now.scope).bind access.now).cell }
        ensures verdicts { tallied tally.new marks.new ≡ after_parts self.now (access_judgements (known self.now) access.now ++ parts.one UndefinedValue (out-Access access.now).at (used_variable access.now)) (tallied tally.old marks.old) }
    {
        self.access(tally, marks, access);
        let held = self.scope.names.held(self.env, access.var);
        tally.add(marks, !held.undef);
        held.itv
    }

    /// A variable with its subscripts.
    #[cycle(judge)]
    pub fn access(&self, tally: &mut Tally, marks: &mut [bool], access: &Access)
        requires seen { each_access (seen_by self.now) access.now ≡ true }
        ensures verdicts { tallied tally.new marks.new ≡ after_parts self.now (access_judgements (known self.now) access.now) (tallied tally.old marks.old) }
    {
        let of_type = var_type(self.scope.program(), access.var);
        self.subscripts(tally, marks, of_type, access.subscripts.as_slice());
    }

    /// The subscripts of a variable of a type, each after its own evaluation.
    #[cycle(judge)]
    fn subscripts(&self, tally: &mut Tally, marks: &mut [bool], of_type: u32, subscripts: &[Expr])
        requires seen { all_true (map (each_expr (seen_by self.now)) subscripts.now) ≡ true }
        ensures verdicts { tallied tally.new marks.new ≡ after_parts self.now (subscripts_judgements (known self.now) of_type (map (beside (known self.now)) subscripts.now)) (tallied tally.old marks.old) }
    {
        let mut t = of_type;
        for subscript in subscripts {
            let array = type_at(self.scope.program(), t);
            let x = self.expr(tally, marks, subscript);
            self.in_type(tally, marks, index_type(array), x);
            t = element_type(array);
        }
    }

    /// A number for a variable of a type, where the type has fewer numbers than its host.
    fn in_type(&self, tally: &mut Tally, marks: &mut [bool], of_type: u32, x: Itv)
        ensures { tallied tally.new marks.new ≡ judging.after_typed (known self.now) of_type x (tallied tally.old marks.old) }
    {
        let range = type_at(self.scope.program(), of_type);
        tally.add_if(marks, is_narrow(range), x.is_within(range_of(range)));
    }

    /// A value for a variable of a type.
    pub fn assigned(&self, tally: &mut Tally, marks: &mut [bool], of_type: u32, e: &Expr)
        requires seen { each_expr (seen_by self.now) e.now ≡ true }
        ensures verdicts { tallied tally.new marks.new ≡ after_parts self.now (assigned_judgements (known self.now) of_type e.now) (tallied tally.old marks.old) }
    {
        let x = self.expr(tally, marks, e);
        self.in_type(tally, marks, of_type, x);
    }

    /// An actual for a formal.
    fn actual(&self, tally: &mut Tally, marks: &mut [bool], formal: u32, actual: &Actual)
        requires seen { each_actual (seen_by self.now) actual.now ≡ true }
        ensures verdicts { tallied tally.new marks.new ≡ after_parts self.now (actual_judgements (known self.now) formal (out-Actual actual.now)) (tallied tally.old marks.old) }
    {
        match actual {
            Actual::Value(e) => {
                self.assigned(tally, marks, var_type(self.scope.program(), formal), e);
            }
            Actual::Whole(access) => self.access(tally, marks, access),
            Actual::Var(access) => self.access(tally, marks, access),
        }
    }

    /// Actuals for formals, in their order.
    pub fn actuals(
        &self,
        tally: &mut Tally,
        marks: &mut [bool],
        actuals: &[Actual],
        formals: &[u32],
    )
        requires seen { all_true (map (each_actual (seen_by self.now)) actuals.now) ≡ true }
        ensures verdicts { tallied tally.new marks.new ≡ after_parts self.now (passing_judgements (known self.now) actuals.now formals.now) (tallied tally.old marks.old) }
    {
        for k in 0..actuals.len().min(formals.len()) {
            self.actual(tally, marks, formals[k], &actuals[k]);
        }
    }

    /// A parameter of `write`.
    pub fn item(&self, tally: &mut Tally, marks: &mut [bool], item: &WriteItem)
        requires seen { each_item (seen_by self.now) item.now ≡ true }
        ensures verdicts { tallied tally.new marks.new ≡ after_parts self.now (item_judgements (known self.now) item.now) (tallied tally.old marks.old) }
    {
        self.written(tally, marks, &item.value);
        if let Some(width) = &item.width {
            self.width(tally, marks, width);
        }
    }

    /// What is written.
    fn written(&self, tally: &mut Tally, marks: &mut [bool], value: &WriteValue)
        requires seen { each_written (seen_by self.now) value.now ≡ true }
        ensures verdicts { tallied tally.new marks.new ≡ after_parts self.now (written_judgements (known self.now) value.now) (tallied tally.old marks.old) }
    {
        if let WriteValue::Value(e) = value {
            self.expr(tally, marks, e);
        }
    }

    /// A width of `write`.
    fn width(&self, tally: &mut Tally, marks: &mut [bool], width: &Expr)
        requires seen { each_expr (seen_by self.now) width.now ≡ true }
        ensures verdicts { tallied tally.new marks.new ≡ after_parts self.now (width_judgements (known self.now) (Some width.now)) (tallied tally.old marks.old) }
    {
        let x = self.expr(tally, marks, width);
        tally.add(marks, x.is_within(widths()));
    }
}
