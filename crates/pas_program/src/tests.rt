//! A consumer that walks expressions and statements and looks up each number that it meets with no test at run time.

ghost use Rattle.std.specs.Prelude.{◌≡◌, true, map, ◌<◌, length};
ghost use Rattle.pas_program.specs.Checked.{numbers_in};
ghost use Rattle.pas_program.specs.Each.{all_true, each_access, each_actual, each_expr, each_statement};

use super::*;

/// How many scalars the variables of an expression have in all, up to 2 to the power of 32.
#[cycle(weigh)]
fn in_expr(p: &Program, e: &Expr) -> u32
    requires { each_expr (numbers_in p.now) e.now ≡ true }
{
    match &e.form {
        ExprForm::Const { .. } => 0,
        ExprForm::Value(access) => in_access(p, access),
        ExprForm::Unary { of, .. } => in_expr(p, of.get()),
        ExprForm::Binary { left, right, .. } => {
            in_expr(p, left.get()).wrapping_add(in_expr(p, right.get()))
        }
        ExprForm::Call { actuals, slot, .. } => {
            let slot = p.elements(p.var_def(*slot).of_type);
            in_actuals(p, actuals.as_slice()).wrapping_add(slot)
        }
    }
}

#[cycle(weigh)]
fn in_access(p: &Program, access: &Access) -> u32
    requires { each_access (numbers_in p.now) access.now ≡ true }
{
    let var = p.elements(p.var_def(access.var).of_type);
    in_exprs(p, access.subscripts.as_slice()).wrapping_add(var)
}

#[cycle(weigh)]
fn in_exprs(p: &Program, exprs: &[Expr]) -> u32
    requires { all_true (map (each_expr (numbers_in p.now)) exprs.now) ≡ true }
{
    let mut sum = 0u32;
    for e in exprs {
        sum = sum.wrapping_add(in_expr(p, e));
    }
    sum
}

#[cycle(weigh)]
fn in_actuals(p: &Program, actuals: &[Actual]) -> u32
    requires { all_true (map (each_actual (numbers_in p.now)) actuals.now) ≡ true }
{
    let mut sum = 0u32;
    for a in actuals {
        sum = sum.wrapping_add(in_actual(p, a));
    }
    sum
}

#[cycle(weigh)]
fn in_actual(p: &Program, a: &Actual) -> u32
    requires { each_actual (numbers_in p.now) a.now ≡ true }
{
    match a {
        Actual::Value(e) => in_expr(p, e),
        Actual::Whole(access) | Actual::Var(access) => in_access(p, access),
    }
}
