//! The host of an expression: Boolean or integer (ISO 7185, 6.4.2 and 6.7).
ghost use Rattle.std.specs.Prelude.{◌≡◌, map, slice_get};
ghost use Rattle.pas_program.specs.Checked.{tables};
ghost use Rattle.pas_program.specs.Typed as typed;

use pas_program::{Access, Expr, ExprForm, Program, TypeDef};
use px_base::{BinOp, UnOp};
use sqlite_items::at;

/// Whether the values of an expression are Booleans; else they are integers. The time is linear in the number of its
/// subscripts.
pub fn is_boolean(program: &Program, e: &Expr) -> bool
    ensures { result ≡ (typed.hosted (tables program.now) e.now).boolean }
{
    match &e.form {
        ExprForm::Const { boolean, .. } => *boolean,
        ExprForm::Value(access) => has_booleans(type_at(program, type_of_access(program, access))),
        ExprForm::Unary { op, .. } => unary_gives(*op),
        ExprForm::Binary { op, .. } => binary_gives(*op),
        ExprForm::Call { slot, .. } => has_booleans(type_of_var(program, *slot)),
    }
}

fn unary_gives(op: UnOp) -> bool
    ensures { result ≡ typed.unary_gives op }
{
    matches!(op, UnOp::Not | UnOp::Odd | UnOp::SuccBool | UnOp::PredBool)
}

fn binary_gives(op: BinOp) -> bool
    ensures { result ≡ typed.binary_gives op }
{
    !matches!(
        op,
        BinOp::Add | BinOp::Sub | BinOp::Mul | BinOp::Div | BinOp::Mod
    )
}

/// Whether the values of a scalar type are Booleans.
fn has_booleans(of_type: Option<TypeDef>) -> bool
    ensures { result ≡ (typed.hosted_by of_type).boolean }
{
    match of_type {
        Some(TypeDef::Scalar { boolean, .. }) => boolean,
        _ => false,
    }
}

fn type_at(program: &Program, t: u32) -> Option<TypeDef>
    ensures { result ≡ slice_get program.now.types t }
{
    at(program.types.as_slice(), t as usize).copied()
}

fn type_of_var(program: &Program, v: u32) -> Option<TypeDef>
    ensures { result ≡ typed.type_of_var (tables program.now) v }
{
    match at(program.vars.as_slice(), v as usize) {
        Some(var) => type_at(program, var.of_type),
        None => None,
    }
}

fn type_of_access(program: &Program, access: &Access) -> u32
    ensures { result ≡ (typed.reached (tables program.now) access.now).of_type }
{
    match at(program.vars.as_slice(), access.var as usize) {
        Some(var) => type_of_part(program, var.of_type, access.subscripts.as_slice()),
        None => 0,
    }
}

/// The type that subscripts lead to from the type `of_type`, or 0 where one leads nowhere, as none does in a checked
/// program.
fn type_of_part(program: &Program, of_type: u32, subscripts: &[Expr]) -> u32
    ensures { result ≡ (typed.subscripted (tables program.now) of_type (map (typed.hosted (tables program.now)) subscripts.now)).of_type }
{
    let mut t = of_type;
    for _subscript in subscripts {
        match type_at(program, t) {
            Some(TypeDef::Array { element, .. }) => t = element,
            _ => return 0,
        }
    }
    t
}
