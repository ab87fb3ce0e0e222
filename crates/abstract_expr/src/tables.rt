//! The tables of a program, as a judge reads them.
ghost use Rattle.std.specs.Prelude.{◌≡◌, slice_get};
ghost use Rattle.control_points.specs.Checking as checking;
ghost use Rattle.control_points.specs.Evaluation as typed;
ghost use Rattle.control_points.specs.Judgements as judgements;
ghost use Rattle.pas_program.specs.Checked.{tables};
ghost use Rattle.abstract_expr.specs.Expressions as meaning;

use interval::Itv;
use pas_program::{Program, TypeDef};
use sqlite_items::at;

/// What the type of a number is.
pub(crate) fn type_at(program: &Program, t: u32) -> Option<TypeDef>
    ensures { result ≡ (tables program.now).type_at t }
{
    at(program.types.as_slice(), t as usize).copied()
}

/// The type of a variable.
pub(crate) fn var_type(program: &Program, v: u32) -> u32
    ensures { result ≡ typed.var_type (tables program.now) v }
{
    match at(program.vars.as_slice(), v as usize) {
        Some(var) => var.of_type,
        None => 0,
    }
}

/// The type of the index of an array.
pub(crate) fn index_type(of_type: Option<TypeDef>) -> u32
    ensures { result ≡ typed.index_type of_type }
{
    match of_type {
        Some(TypeDef::Array { index, .. }) => index,
        _ => 0,
    }
}

/// The type of the elements of an array.
pub(crate) fn element_type(of_type: Option<TypeDef>) -> u32
    ensures { result ≡ typed.element_type of_type }
{
    match of_type {
        Some(TypeDef::Array { element, .. }) => element,
        _ => 0,
    }
}

/// Whether a scalar type has fewer numbers than its host.
pub(crate) fn is_narrow(of_type: Option<TypeDef>) -> bool
    ensures { result ≡ checking.is_narrow of_type }
{
    match of_type {
        Some(TypeDef::Scalar { boolean, lo, hi }) => {
            if boolean {
                !(lo == 0 && hi == 1)
            } else {
                !(lo == -i32::MAX && hi == i32::MAX)
            }
        }
        _ => false,
    }
}

/// The numbers of a scalar type; for any other, all numbers.
pub(crate) fn range_of(of_type: Option<TypeDef>) -> Itv
    ensures { result ≡ meaning.range_of of_type }
{
    match of_type {
        Some(TypeDef::Scalar { lo, hi, .. }) => Itv::between(i64::from(lo), i64::from(hi)),
        _ => Itv::NUMBERS,
    }
}

/// The formals of a routine.
pub(crate) fn formals_of(program: &Program, routine: u32) -> &[u32]
    ensures { result.now ≡ checking.formals_of ((tables program.now).head_at routine) }
{
    match at(program.routines.as_slice(), routine as usize) {
        Some(callee) => callee.formals.as_slice(),
        None => &[],
    }
}

/// The variable for the result of a function.
pub(crate) fn result_of(program: &Program, routine: u32) -> Option<u32>
    ensures { result ≡ judgements.result_of (tables program.now) routine }
{
    match at(program.routines.as_slice(), routine as usize) {
        Some(callee) => callee.result,
        None => None,
    }
}
