//! The errors that the action at a point may be, in the order of evaluation (ISO 7185, 3.2 and 6.5 to 6.9).
ghost use Rattle.std.specs.Prelude.{◌≡◌, ◌++◌, ◌∷◌, [], map, OnOk, slice_get};
ghost use Rattle.control_points.specs.Checking as faults;
ghost use Rattle.control_points.specs.Evaluation as typed;
ghost use Rattle.control_points.specs.Judging.{known, judged};
ghost use Rattle.pas_program.specs.declared.expr.Actual.TheViews.{out-Actual};

use crate::check::Check;
use pas_program::{Access, Actual, Expr, ExprForm, Program, TypeDef, WriteItem, WriteValue};
use px_base::{BinOp, Kind, UnOp};
use sqlite_items::{Items, at};
use std::alloc::AllocError;

/// The point whose checks are listed.
#[derive(Clone, Copy)]
pub struct Judge<'a> {
    pub program: &'a Program,
    pub point: u32,
}

/// Whether a type has less values than its host.
fn is_narrow(of_type: Option<TypeDef>) -> bool
    ensures { result ≡ faults.is_narrow of_type }
{
    match of_type {
        Some(TypeDef::Scalar { boolean, lo, hi }) => {
            if boolean {
                !(lo == 0 && hi == 1)
            } else {
                !(lo == -i32::MAX && hi == i32::MAX)
            }
        }
        _ => false,
    }
}

fn index_type(of_type: Option<TypeDef>) -> u32
    ensures { result ≡ typed.index_type of_type }
{
    match of_type {
        Some(TypeDef::Array { index, .. }) => index,
        _ => 0,
    }
}

fn element_type(of_type: Option<TypeDef>) -> u32
    ensures { result ≡ typed.element_type of_type }
{
    match of_type {
        Some(TypeDef::Array { element, .. }) => element,
        _ => 0,
    }
}

impl<'a> Judge<'a> {
    fn type_at(&self, t: u32) -> Option<TypeDef>
        ensures { result ≡ slice_get self.now.program.now.types t }
    {
        at(self.program.types.as_slice(), t as usize).copied()
    }

    fn var_type(&self, v: u32) -> u32
        ensures { result ≡ typed.var_type (known self.now) v }
    {
        match at(self.program.vars.as_slice(), v as usize) {
            Some(var) => var.of_type,
            None => 0,
        }
    }

    /// The type of the part of a variable that an access names.
    fn access_type(&self, access: &Access) -> u32
        ensures { result ≡ typed.access_type (known self.now) access.now }
    {
        self.part_type(self.var_type(access.var), access.subscripts.as_slice())
    }

    fn part_type(&self, of_type: u32, subscripts: &[Expr]) -> u32
        ensures { result ≡ typed.part_type (known self.now) of_type subscripts.now }
    {
        let mut t = of_type;
        for _subscript in subscripts {
            t = element_type(self.type_at(t));
        }
        t
    }

    fn formals(&self, routine: u32) -> &'a [u32]
        ensures { result.now ≡ faults.formals_of ((known self.now).head_at routine) }
    {
        match at(self.program.routines.as_slice(), routine as usize) {
            Some(callee) => callee.formals.as_slice(),
            None => &[],
        }
    }

    fn add(&self, kind: Kind, at: u32, checks: &mut Items<Check>) -> Result<(), AllocError>
        ensures { OnOk result (checks.new ≡ checks.old ++ judged self.now (faults.one kind at)) }
    {
        checks.push(Check {
            kind,
            at,
            point: self.point,
        })
    }

    /// That a number is a value of the type `t`, where it may be none.
    fn in_type(
        &self,
        t: u32,
        kind: Kind,
        at: u32,
        checks: &mut Items<Check>,
    ) -> Result<(), AllocError>
        ensures { OnOk result (checks.new ≡ checks.old ++ judged self.now (faults.one_if (faults.is_narrow (slice_get self.now.program.now.types t)) kind at)) }
    {
        if is_narrow(self.type_at(t)) {
            return self.add(kind, at, checks);
        }
        Ok(())
    }

    #[cycle(judge)]
    pub fn expr(&self, e: &Expr, checks: &mut Items<Check>) -> Result<(), AllocError>
        ensures { OnOk result (checks.new ≡ checks.old ++ judged self.now (faults.expr_checks (known self.now) e.now)) }
    {
        match &e.form {
            ExprForm::Const { .. } => Ok(()),
            ExprForm::Call { .. } => Ok(()),
            ExprForm::Value(access) => {
                self.access(access, checks)?;
                self.add(Kind::UndefinedValue, access.at, checks)
            }
            ExprForm::Unary { op, of, at } => {
                self.expr(of.get(), checks)?;
                self.unary(*op, *at, checks)
            }
            ExprForm::Binary {
                op,
                left,
                right,
                at,
            } => {
                self.expr(left.get(), checks)?;
                self.expr(right.get(), checks)?;
                self.binary(*op, *at, checks)
            }
        }
    }

    fn unary(&self, op: UnOp, at: u32, checks: &mut Items<Check>) -> Result<(), AllocError>
        ensures { OnOk result (checks.new ≡ checks.old ++ judged self.now (faults.unary_checks op at)) }
    {
        match op {
            UnOp::Sqr => self.add(Kind::Overflow, at, checks),
            UnOp::SuccInt => self.add(Kind::NoNeighbour, at, checks),
            UnOp::PredInt => self.add(Kind::NoNeighbour, at, checks),
            UnOp::SuccBool => self.add(Kind::NoNeighbour, at, checks),
            UnOp::PredBool => self.add(Kind::NoNeighbour, at, checks),
            _ => Ok(()),
        }
    }

    fn binary(&self, op: BinOp, at: u32, checks: &mut Items<Check>) -> Result<(), AllocError>
        ensures { OnOk result (checks.new ≡ checks.old ++ judged self.now (faults.binary_checks op at)) }
    {
        match op {
            BinOp::Add => self.add(Kind::Overflow, at, checks),
            BinOp::Sub => self.add(Kind::Overflow, at, checks),
            BinOp::Mul => self.add(Kind::Overflow, at, checks),
            BinOp::Div => self.add(Kind::DivisionByZero, at, checks),
            BinOp::Mod => self.add(Kind::ModulusNotPositive, at, checks),
            _ => Ok(()),
        }
    }

    /// Of a variable that is assigned to, copied or passed.
    #[cycle(judge)]
    pub fn access(&self, access: &Access, checks: &mut Items<Check>) -> Result<(), AllocError>
        ensures { OnOk result (checks.new ≡ checks.old ++ judged self.now (faults.access_checks (known self.now) access.now)) }
    {
        self.subscripts(
            access.subscripts.as_slice(),
            self.var_type(access.var),
            checks,
        )
    }

    /// Of the subscripts of a variable of the type `of_type`.
    #[cycle(judge)]
    fn subscripts(
        &self,
        subscripts: &[Expr],
        of_type: u32,
        checks: &mut Items<Check>,
    ) -> Result<(), AllocError>
        ensures { OnOk result (checks.new ≡ checks.old ++ judged self.now (faults.subscripts_checks (known self.now) of_type (map (faults.checked_expr (known self.now)) subscripts.now))) }
    {
        let mut t = of_type;
        for e in subscripts {
            self.expr(e, checks)?;
            let index = index_type(self.type_at(t));
            self.in_type(index, Kind::IndexOutOfRange, e.first, checks)?;
            t = element_type(self.type_at(t));
        }
        Ok(())
    }

    /// Of a value that goes to a variable of the type `t`.
    fn assigned(&self, t: u32, e: &Expr, checks: &mut Items<Check>) -> Result<(), AllocError>
        ensures { OnOk result (checks.new ≡ checks.old ++ judged self.now (faults.assigned_checks (known self.now) t e.now)) }
    {
        self.expr(e, checks)?;
        self.in_type(t, Kind::ValueOutOfRange, e.first, checks)
    }

    /// Of an assignment.
    pub fn assignment(
        &self,
        to: &Access,
        value: &Expr,
        checks: &mut Items<Check>,
    ) -> Result<(), AllocError>
        ensures { OnOk result (checks.new ≡ checks.old ++ judged self.now (faults.access_checks (known self.now) to.now ++ faults.assigned_checks (known self.now) (typed.access_type (known self.now) to.now) value.now)) }
    {
        self.access(to, checks)?;
        self.assigned(self.access_type(to), value, checks)
    }

    /// Of the assignment of a whole array.
    pub fn copying(
        &self,
        to: &Access,
        from: &Access,
        checks: &mut Items<Check>,
    ) -> Result<(), AllocError>
        ensures { OnOk result (checks.new ≡ checks.old ++ judged self.now (faults.access_checks (known self.now) to.now ++ faults.access_checks (known self.now) from.now)) }
    {
        self.access(to, checks)?;
        self.access(from, checks)
    }

    /// Of the actuals of a call of `routine`.
    pub fn passing(
        &self,
        routine: u32,
        actuals: &[Actual],
        checks: &mut Items<Check>,
    ) -> Result<(), AllocError>
        ensures { OnOk result (checks.new ≡ checks.old ++ judged self.now (faults.passing_checks (known self.now) actuals.now (faults.formals_of ((known self.now).head_at routine)))) }
    {
        self.passed(actuals, self.formals(routine), checks)
    }

    fn passed(
        &self,
        actuals: &[Actual],
        formals: &[u32],
        checks: &mut Items<Check>,
    ) -> Result<(), AllocError>
        ensures { OnOk result (checks.new ≡ checks.old ++ judged self.now (faults.passing_checks (known self.now) actuals.now formals.now)) }
    {
        for (k, a) in actuals.iter().enumerate() {
            if k < formals.len() {
                self.actual(a, formals[k], checks)?;
            }
        }
        Ok(())
    }

    fn actual(&self, a: &Actual, formal: u32, checks: &mut Items<Check>) -> Result<(), AllocError>
        ensures { OnOk result (checks.new ≡ checks.old ++ judged self.now (faults.actual_checks (known self.now) formal (out-Actual a.now))) }
    {
        match a {
            Actual::Value(e) => self.assigned(self.var_type(formal), e, checks),
            Actual::Whole(access) => self.access(access, checks),
            Actual::Var(access) => self.access(access, checks),
        }
    }

    /// Of a parameter of `read`.
    pub fn read(&self, to: &Access, checks: &mut Items<Check>) -> Result<(), AllocError>
        ensures { OnOk result (checks.new ≡ checks.old ++ judged self.now (faults.read_checks (known self.now) (typed.access_type (known self.now) to.now) to.now)) }
    {
        self.access(to, checks)?;
        self.add(Kind::NoNumber, to.at, checks)?;
        self.in_type(self.access_type(to), Kind::ValueOutOfRange, to.at, checks)
    }

    /// Of a parameter of `write`.
    pub fn item(&self, item: &WriteItem, checks: &mut Items<Check>) -> Result<(), AllocError>
        ensures { OnOk result (checks.new ≡ checks.old ++ judged self.now (faults.item_checks (known self.now) item.now)) }
    {
        self.written(&item.value, checks)?;
        match &item.width {
            None => Ok(()),
            Some(e) => {
                self.expr(e, checks)?;
                self.add(Kind::WidthOutOfRange, e.first, checks)
            }
        }
    }

    fn written(&self, value: &WriteValue, checks: &mut Items<Check>) -> Result<(), AllocError>
        ensures { OnOk result (checks.new ≡ checks.old ++ judged self.now (faults.written_checks (known self.now) value.now)) }
    {
        match value {
            WriteValue::Value(e) => self.expr(e, checks),
            WriteValue::Text { .. } => Ok(()),
        }
    }

    /// Of the selector of a `case`.
    pub fn selector(&self, e: &Expr, checks: &mut Items<Check>) -> Result<(), AllocError>
        ensures { OnOk result (checks.new ≡ checks.old ++ judged self.now (faults.selector_checks (known self.now) e.now)) }
    {
        self.expr(e, checks)?;
        self.add(Kind::NoCaseLabel, e.first, checks)
    }

    /// Of both bounds of a `for` over `control`, which are compared with its type after the evaluation of both.
    pub fn bounds(
        &self,
        control: u32,
        first: &Expr,
        last: &Expr,
        checks: &mut Items<Check>,
    ) -> Result<(), AllocError>
        ensures { OnOk result (checks.new ≡ checks.old ++ judged self.now (faults.bounds_checks (known self.now) (typed.var_type (known self.now) control) first.now last.now)) }
    {
        let t = self.var_type(control);
        self.expr(first, checks)?;
        self.expr(last, checks)?;
        self.in_type(t, Kind::ValueOutOfRange, first.first, checks)?;
        self.in_type(t, Kind::ValueOutOfRange, last.first, checks)
    }

    /// Of the assertions of a point that must always hold.
    pub fn assertions(&self, listed: &[u32], checks: &mut Items<Check>) -> Result<(), AllocError>
        ensures { OnOk result (checks.new ≡ checks.old ++ judged self.now (faults.assert_checks self.now.program.now.asserts listed.now)) }
    {
        for a in listed {
            self.assertion(*a, checks)?;
        }
        Ok(())
    }

    fn assertion(&self, a: u32, checks: &mut Items<Check>) -> Result<(), AllocError>
        ensures { OnOk result (checks.new ≡ checks.old ++ judged self.now (faults.assert_check (slice_get self.now.program.now.asserts a))) }
    {
        match at(self.program.asserts.as_slice(), a as usize) {
            None => Ok(()),
            Some(assertion) => {
                if assertion.sometime {
                    return Ok(());
                }
                self.add(Kind::Assertion, assertion.cond.first, checks)
            }
        }
    }

    /// Of the result of a function at its exit.
    pub fn outcome(
        &self,
        variable: Option<u32>,
        at: u32,
        checks: &mut Items<Check>,
    ) -> Result<(), AllocError>
        ensures { OnOk result (checks.new ≡ checks.old ++ judged self.now (faults.result_checks variable at)) }
    {
        match variable {
            None => Ok(()),
            Some(_) => self.add(Kind::NoResult, at, checks),
        }
    }
}
