//! The function calls in expressions, in the order in which they are made (ISO 7185, 6.7.3).
ghost use Rattle.std.specs.Prelude.{◌≡◌, ◌++◌, map, OnOk, IfOk};
ghost use Rattle.control_points.specs.Calls.{expr_calls, access_calls, actual_calls, actuals_calls, exprs_calls, item_calls, written_calls};
ghost use Rattle.control_points.specs.Called.{sites_of, own_calls};

use pas_program::{Access, Actual, Body, Expr, ExprForm, WriteItem, WriteValue};
use std::alloc::{AllocError, Global};

/// A call in an expression or a procedure statement: its routine, its actuals, the variable for a function's result, and
/// the place of the name.
#[derive(Clone, Copy)]
pub struct CallSite<'e> {
    pub routine: u32,
    pub actuals: &'e [Actual],
    pub slot: Option<u32>,
    pub at: u32,
}

#[cycle(calls)]
pub fn calls_in_expr<'e>(e: &'e Expr, sites: &mut Vec<CallSite<'e>>) -> Result<(), AllocError>
    ensures { OnOk result (sites_of sites.new.items ≡ sites_of sites.old.items ++ expr_calls e.now) }
{
    match &e.form {
        ExprForm::Const { .. } => Ok(()),
        ExprForm::Value(access) => calls_in_access(access, sites),
        ExprForm::Unary { of, .. } => calls_in_expr(of.get(), sites),
        ExprForm::Binary { left, right, .. } => {
            calls_in_expr(left.get(), sites)?;
            calls_in_expr(right.get(), sites)
        }
        ExprForm::Call {
            routine,
            actuals,
            slot,
            at,
        } => {
            calls_in_actuals(actuals.as_slice(), sites)?;
            sites.push(CallSite {
                routine: *routine,
                actuals: actuals.as_slice(),
                slot: Some(*slot),
                at: *at,
            })?;
            Ok(())
        }
    }
}

#[cycle(calls)]
pub fn calls_in_access<'e>(
    access: &'e Access,
    sites: &mut Vec<CallSite<'e>>,
) -> Result<(), AllocError>
    ensures { OnOk result (sites_of sites.new.items ≡ sites_of sites.old.items ++ access_calls access.now) }
{
    calls_in_exprs(access.subscripts.as_slice(), sites)
}

#[cycle(calls)]
fn calls_in_exprs<'e>(exprs: &'e [Expr], sites: &mut Vec<CallSite<'e>>) -> Result<(), AllocError>
    ensures { OnOk result (sites_of sites.new.items ≡ sites_of sites.old.items ++ exprs_calls exprs.now) }
{
    for e in exprs {
        calls_in_expr(e, sites)?;
    }
    Ok(())
}

#[cycle(calls)]
pub fn calls_in_actuals<'e>(
    actuals: &'e [Actual],
    sites: &mut Vec<CallSite<'e>>,
) -> Result<(), AllocError>
    ensures { OnOk result (sites_of sites.new.items ≡ sites_of sites.old.items ++ actuals_calls actuals.now) }
{
    for a in actuals {
        calls_in_actual(a, sites)?;
    }
    Ok(())
}

#[cycle(calls)]
fn calls_in_actual<'e>(a: &'e Actual, sites: &mut Vec<CallSite<'e>>) -> Result<(), AllocError>
    ensures { OnOk result (sites_of sites.new.items ≡ sites_of sites.old.items ++ actual_calls a.now) }
{
    match a {
        Actual::Value(e) => calls_in_expr(e, sites),
        Actual::Whole(access) => calls_in_access(access, sites),
        Actual::Var(access) => calls_in_access(access, sites),
    }
}

/// Those of a parameter of `write`, its value before its width.
pub fn calls_in_item<'e>(
    item: &'e WriteItem,
    sites: &mut Vec<CallSite<'e>>,
) -> Result<(), AllocError>
    ensures { OnOk result (sites_of sites.new.items ≡ sites_of sites.old.items ++ item_calls item.now) }
{
    calls_in_written(&item.value, sites)?;
    match &item.width {
        None => Ok(()),
        Some(e) => calls_in_expr(e, sites),
    }
}

fn calls_in_written<'e>(
    value: &'e WriteValue,
    sites: &mut Vec<CallSite<'e>>,
) -> Result<(), AllocError>
    ensures { OnOk result (sites_of sites.new.items ≡ sites_of sites.old.items ++ written_calls value.now) }
{
    match value {
        WriteValue::Value(e) => calls_in_expr(e, sites),
        WriteValue::Text { .. } => Ok(()),
    }
}

/// The calls in the action that leaves the point before a statement, which are made before it.
pub fn own_calls<'e>(alloc: Global, body: &'e Body) -> Result<Vec<CallSite<'e>>, AllocError>
    ensures { IfOk result (λ sites. sites_of sites.items ≡ own_calls body.now) }
{
    let mut sites = Vec::new(alloc);
    match body {
        Body::Assign { to, value } => {
            calls_in_access(to, &mut sites)?;
            calls_in_expr(value, &mut sites)?;
        }
        Body::Copy { to, from } => {
            calls_in_access(to, &mut sites)?;
            calls_in_access(from, &mut sites)?;
        }
        Body::Call { actuals, .. } => calls_in_actuals(actuals.as_slice(), &mut sites)?,
        Body::If { cond, .. } => calls_in_expr(cond, &mut sites)?,
        Body::Case { of, .. } => calls_in_expr(of, &mut sites)?,
        Body::While { cond, .. } => calls_in_expr(cond, &mut sites)?,
        Body::For { first, last, .. } => {
            calls_in_expr(first, &mut sites)?;
            calls_in_expr(last, &mut sites)?;
        }
        Body::Empty
        | Body::Read { .. }
        | Body::Write { .. }
        | Body::Goto { .. }
        | Body::Begin { .. }
        | Body::Repeat { .. } => {}
    }
    Ok(sites)
}
