//! Expressions: their types, what they see, and how much of them there is.

ghost use Rattle.std.specs.Prelude.{◌≡◌, ◌+◌, ◌≤◌, true, IfSome, OnSome, map, slice_get};
ghost use Rattle.std.specs.List.{sum};
ghost use Rattle.pas_program.specs.Each.{all_true, each_access, each_actual, each_expr};
ghost use Rattle.pas_program.specs.Size.{access_size, actual_size, expr_size};
ghost use Rattle.pas_program.specs.Tables.{holds_of};
ghost use Rattle.pas_program.specs.Typed as typed;
ghost use Rattle.pas_program.specs.Types as types;
ghost use Rattle.pas_program.specs.Typed.{hosted, hosted_by, hosted_if, reached, passed, subscripted, is_passed_to, are_passed_to, function_fits, type_of_var};
ghost use Rattle.pas_valid.specs.Passing.{known, placed, of_host, of_type};

use crate::ground::Ground;
use crate::scope::is_kind;
use pas_program::{Access, Actual, Expr, ExprForm, TypeDef, VarDef, VarKind};
use px_base::{BinOp, UnOp};
use sqlite_items::at;

/// Takes one part off what is left.
pub fn spend(left: &mut u32) -> Option<()>
    ensures { OnSome result (1 + left.new ≤ left.old) }
{
    *left = left.checked_sub(1)?;
    Some(())
}

impl<'a> Ground<'a> {
    /// The host of an expression that passes. `left` falls at least by the number of its parts.
    #[cycle(expr)]
    pub fn expr(&self, e: &Expr, left: &mut u32) -> Option<bool>
        ensures types { IfSome result (λ b. hosted (known self.now) e.now ≡ of_host b) }
        ensures scopes { OnSome result (each_expr (placed self.now) e.now ≡ true) }
        ensures size { OnSome result (expr_size e.now + left.new ≤ left.old) }
    {
        spend(left)?;
        match &e.form {
            ExprForm::Const { boolean, value } => {
                if in_host(*boolean, *value) {
                    Some(*boolean)
                } else {
                    None
                }
            }
            ExprForm::Value(access) => {
                let t = self.access(access, left)?;
                self.host(t)
            }
            ExprForm::Unary { op, of, .. } => {
                let host = self.expr(of.get(), left)?;
                if unary_takes(*op, host) {
                    Some(unary_gives(*op))
                } else {
                    None
                }
            }
            ExprForm::Binary {
                op,
                left: first,
                right,
                ..
            } => {
                let a = self.expr(first.get(), left)?;
                let b = self.expr(right.get(), left)?;
                if binary_takes(*op, a, b) {
                    Some(binary_gives(*op))
                } else {
                    None
                }
            }
            ExprForm::Call {
                routine,
                actuals,
                slot,
                ..
            } => self.function(*routine, actuals.as_slice(), *slot, left),
        }
    }

    /// The type that an access reaches.
    #[cycle(expr)]
    pub fn access(&self, access: &Access, left: &mut u32) -> Option<u32>
        ensures types { IfSome result (λ t. reached (known self.now) access.now ≡ of_type t) }
        ensures scopes { OnSome result (each_access (placed self.now) access.now ≡ true) }
        ensures size { OnSome result (access_size access.now + left.new ≤ left.old) }
    {
        if !self.is_visible(access.var) {
            return None;
        }
        let var = at(self.vars, access.var as usize)?;
        self.subscripts(access.subscripts.as_slice(), var.of_type, left)
    }

    /// The type that subscripts lead to from the type `from`.
    #[cycle(expr)]
    fn subscripts(&self, list: &[Expr], from: u32, left: &mut u32) -> Option<u32>
        ensures types { IfSome result (λ u. subscripted (known self.now) from (map (hosted (known self.now)) list.now) ≡ of_type u) }
        ensures scopes { OnSome result (all_true (map (each_expr (placed self.now)) list.now) ≡ true) }
        ensures size { OnSome result (sum (map expr_size list.now) + left.new ≤ left.old) }
    {
        let mut t = from;
        for subscript in list {
            let Some(TypeDef::Array { index, element }) = at(self.types, t as usize) else {
                return None;
            };
            let host = self.expr(subscript, left)?;
            if !self.has_host(host, *index) {
                return None;
            }
            t = *element;
        }
        Some(t)
    }

    /// The host of a function's result, where its actuals and its slot pass.
    #[cycle(expr)]
    fn function(&self, routine: u32, actuals: &[Actual], slot: u32, left: &mut u32) -> Option<bool>
        ensures types { IfSome result (λ b. hosted_if (holds_of (function_fits (known self.now) (map (passed (known self.now)) actuals.now) slot) ((known self.now).head_at routine)) (hosted_by (type_of_var (known self.now) slot)) ≡ of_host b) }
        ensures call { OnSome result ((placed self.now).call routine slot ≡ true) }
        ensures scopes { OnSome result (all_true (map (each_actual (placed self.now)) actuals.now) ≡ true) }
        ensures size { OnSome result (sum (map actual_size actuals.now) + left.new ≤ left.old) }
    {
        if !self.calls {
            return None;
        }
        if !(self.is_callable(routine) && self.is_own(VarKind::Slot, slot)) {
            return None;
        }
        let callee = at(self.routines, routine as usize)?;
        let own = at(self.vars, callee.result? as usize)?;
        let kept = at(self.vars, slot as usize)?;
        if kept.of_type != own.of_type {
            return None;
        }
        self.actuals(actuals, callee.formals.as_slice(), left)?;
        self.host(kept.of_type)
    }

    /// Whether actuals pass, each to its formal.
    #[cycle(expr)]
    pub fn actuals(&self, actuals: &[Actual], formals: &[u32], left: &mut u32) -> Option<()>
        ensures types { OnSome result (are_passed_to (known self.now) (map (passed (known self.now)) actuals.now) formals.now ≡ true) }
        ensures scopes { OnSome result (all_true (map (each_actual (placed self.now)) actuals.now) ≡ true) }
        ensures size { OnSome result (sum (map actual_size actuals.now) + left.new ≤ left.old) }
    {
        if actuals.len() != formals.len() {
            return None;
        }
        for (k, actual) in actuals.iter().enumerate() {
            let formal = *at(formals, k)?;
            self.actual(actual, formal, left)?;
        }
        Some(())
    }

    /// Whether an actual passes to a formal.
    #[cycle(expr)]
    fn actual(&self, actual: &Actual, formal: u32, left: &mut u32) -> Option<()>
        ensures types { OnSome result (holds_of (is_passed_to (known self.now) (passed (known self.now) actual.now)) ((known self.now).var_at formal) ≡ true) }
        ensures scopes { OnSome result (each_actual (placed self.now) actual.now ≡ true) }
        ensures size { OnSome result (actual_size actual.now + left.new ≤ left.old) }
    {
        spend(left)?;
        let formal = at(self.vars, formal as usize)?;
        let passes = match actual {
            Actual::Value(e) => {
                let host = self.expr(e, left)?;
                is_kind(VarKind::Value, formal.kind) && self.has_host(host, formal.of_type)
            }
            Actual::Whole(access) => {
                let t = self.access(access, left)?;
                is_kind(VarKind::Value, formal.kind) && t == formal.of_type && self.is_array(t)
            }
            Actual::Var(access) => {
                let t = self.access(access, left)?;
                is_kind(VarKind::Var, formal.kind) && t == formal.of_type
            }
        };
        if passes { Some(()) } else { None }
    }

    /// Whether a type is an array.
    pub fn is_array(&self, t: u32) -> bool
        ensures { result ≡ types.is_array (slice_get self.now.types.now t) }
    {
        matches!(at(self.types, t as usize), Some(TypeDef::Array { .. }))
    }

    fn host(&self, t: u32) -> Option<bool>
        ensures { IfSome result (λ b. hosted_by (slice_get self.now.types.now t) ≡ of_host b) }
    {
        match at(self.types, t as usize) {
            Some(TypeDef::Scalar { boolean, .. }) => Some(*boolean),
            _ => None,
        }
    }
}

pub fn in_host(boolean: bool, value: i32) -> bool
    ensures { result ≡ types.in_host boolean value }
{
    if boolean {
        0 <= value && value <= 1
    } else {
        -i32::MAX <= value
    }
}

fn unary_takes(op: UnOp, boolean: bool) -> bool
    ensures { result ≡ typed.unary_takes op boolean }
{
    match op {
        UnOp::Not | UnOp::SuccBool | UnOp::PredBool => boolean,
        UnOp::OrdOf => true,
        _ => !boolean,
    }
}

fn unary_gives(op: UnOp) -> bool
    ensures { result ≡ typed.unary_gives op }
{
    matches!(op, UnOp::Not | UnOp::Odd | UnOp::SuccBool | UnOp::PredBool)
}

fn binary_takes(op: BinOp, left: bool, right: bool) -> bool
    ensures { result ≡ typed.binary_takes op left right }
{
    match op {
        BinOp::Add | BinOp::Sub | BinOp::Mul | BinOp::Div | BinOp::Mod => !left && !right,
        BinOp::And | BinOp::Or => left && right,
        _ => left == right,
    }
}

fn binary_gives(op: BinOp) -> bool
    ensures { result ≡ typed.binary_gives op }
{
    !matches!(
        op,
        BinOp::Add | BinOp::Sub | BinOp::Mul | BinOp::Div | BinOp::Mod
    )
}
