//! Copies of the parts of a program, each the same value as what it copies.
ghost use Rattle.std.specs.Prelude.{◌≡◌, IfOk};

use pas_program::{Access, Actual, Expr, ExprForm, WriteItem, WriteValue};
use sqlite_items::{Boxed, Items};
use std::alloc::{AllocError, Global};

#[cycle(copy)]
pub fn copy_expr(alloc: Global, e: &Expr) -> Result<Expr, AllocError>
    ensures { IfOk result (λ copy. copy ≡ e.now) }
{
    let form = copy_form(alloc, &e.form)?;
    Ok(Expr {
        first: e.first,
        form,
    })
}

#[cycle(copy)]
fn copy_form(alloc: Global, form: &ExprForm) -> Result<ExprForm, AllocError>
    ensures { IfOk result (λ copy. copy ≡ form.now) }
{
    match form {
        ExprForm::Const { boolean, value } => Ok(ExprForm::Const {
            boolean: *boolean,
            value: *value,
        }),
        ExprForm::Value(access) => Ok(ExprForm::Value(copy_access(alloc, access)?)),
        ExprForm::Unary { op, of, at } => Ok(ExprForm::Unary {
            op: *op,
            of: copy_boxed(alloc, of.get())?,
            at: *at,
        }),
        ExprForm::Binary {
            op,
            left,
            right,
            at,
        } => Ok(ExprForm::Binary {
            op: *op,
            left: copy_boxed(alloc, left.get())?,
            right: copy_boxed(alloc, right.get())?,
            at: *at,
        }),
        ExprForm::Call {
            routine,
            actuals,
            slot,
            at,
        } => Ok(ExprForm::Call {
            routine: *routine,
            actuals: copy_actuals(alloc, actuals.as_slice())?,
            slot: *slot,
            at: *at,
        }),
    }
}

#[cycle(copy)]
fn copy_boxed(alloc: Global, e: &Expr) -> Result<Boxed<Expr>, AllocError>
    ensures { IfOk result (λ copy. copy ≡ e.now) }
{
    let inner = copy_expr(alloc, e)?;
    Boxed::new(alloc, inner)
}

#[cycle(copy)]
pub fn copy_access(alloc: Global, access: &Access) -> Result<Access, AllocError>
    ensures { IfOk result (λ copy. copy ≡ access.now) }
{
    let subscripts = copy_exprs(alloc, access.subscripts.as_slice())?;
    Ok(Access {
        var: access.var,
        subscripts,
        at: access.at,
    })
}

#[cycle(copy)]
fn copy_exprs(alloc: Global, exprs: &[Expr]) -> Result<Items<Expr>, AllocError>
    ensures { IfOk result (λ copies. copies ≡ exprs.now) }
{
    let mut copies = Items::new(alloc);
    for e in exprs {
        copies.push(copy_expr(alloc, e)?)?;
    }
    Ok(copies)
}

#[cycle(copy)]
pub fn copy_actuals(alloc: Global, actuals: &[Actual]) -> Result<Items<Actual>, AllocError>
    ensures { IfOk result (λ copies. copies ≡ actuals.now) }
{
    let mut copies = Items::new(alloc);
    for a in actuals {
        copies.push(copy_actual(alloc, a)?)?;
    }
    Ok(copies)
}

#[cycle(copy)]
fn copy_actual(alloc: Global, a: &Actual) -> Result<Actual, AllocError>
    ensures { IfOk result (λ copy. copy ≡ a.now) }
{
    match a {
        Actual::Value(e) => Ok(Actual::Value(copy_expr(alloc, e)?)),
        Actual::Whole(access) => Ok(Actual::Whole(copy_access(alloc, access)?)),
        Actual::Var(access) => Ok(Actual::Var(copy_access(alloc, access)?)),
    }
}

/// A copy of a parameter of `write`.
pub fn copy_item(alloc: Global, item: &WriteItem) -> Result<WriteItem, AllocError>
    ensures { IfOk result (λ copy. copy ≡ item.now) }
{
    let value = copy_written(alloc, &item.value)?;
    match &item.width {
        None => Ok(WriteItem { value, width: None }),
        Some(e) => {
            let width = Some(copy_expr(alloc, e)?);
            Ok(WriteItem { value, width })
        }
    }
}

fn copy_written(alloc: Global, value: &WriteValue) -> Result<WriteValue, AllocError>
    ensures { IfOk result (λ copy. copy ≡ value.now) }
{
    match value {
        WriteValue::Value(e) => Ok(WriteValue::Value(copy_expr(alloc, e)?)),
        WriteValue::Text { bytes, at } => Ok(WriteValue::Text {
            bytes: Items::from_slice(alloc, bytes.as_slice())?,
            at: *at,
        }),
    }
}
