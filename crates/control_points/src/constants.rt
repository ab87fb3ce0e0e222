//! The walk that finds the integer constants which stand first in the text of a program.
ghost use Rattle.std.specs.Prelude.{◌≡◌, ◌++◌, ◌∷◌, [], map, length, nat_le, OnOk, IfOk, slice_get};
ghost use Rattle.pas_program.specs.Checked.{tables};
ghost use Rattle.control_points.specs.Thresholds as spec;
ghost use Rattle.control_points.specs.Marks.{joined};

use crate::hosts::is_boolean;
use pas_program::{
    Access, Actual, Arm, Body, Expr, ExprForm, Program, Statement, WriteItem, WriteValue,
};
use sqlite_items::{Items, at};
use std::alloc::{AllocError, Global};

/// How many different constants count.
const MOST_CONSTANTS: usize = 20;

/// The first different constants of what was read, in the order of the text.
#[derive(Drop)]
pub struct Constants {
    pub values: Items<i32>,
    ghost first: { spec.first_different values ≡ values },
}

impl Constants {
    pub fn of_program(alloc: Global, program: &Program) -> Result<Constants, AllocError>
        ensures { IfOk result (λ found. found.values ≡ spec.first_different (spec.program_constants program.now)) }
    {
        let mut found = Constants {
            values: Items::new(alloc),
        };
        for routine in program.routines.as_slice() {
            found.statement(program, &routine.body)?;
        }
        Ok(found)
    }

    fn is_full(&self) -> bool
        ensures { result ≡ nat_le spec.most_constants (length self.now.values) }
    {
        self.values.len() >= MOST_CONSTANTS
    }

    fn has(&self, z: i32) -> bool
        ensures { result ≡ spec.among z self.now.values }
    {
        self.values.as_slice().iter().any(|y| *y == z)
    }

    fn constant(&mut self, z: i32) -> Result<(), AllocError>
        ensures { OnOk result (self.new.values ≡ spec.first_different (self.old.values ++ z ∷ [])) }
    {
        if self.is_full() || self.has(z) {
            return Ok(());
        }
        self.values.push(z)
    }

    fn constants(&mut self, zs: &[i32]) -> Result<(), AllocError>
        ensures { OnOk result (self.new.values ≡ spec.first_different (self.old.values ++ zs.now)) }
    {
        for z in zs {
            self.constant(*z)?;
        }
        Ok(())
    }

    #[cycle(constants)]
    fn expr(&mut self, e: &Expr) -> Result<(), AllocError>
        ensures { OnOk result (self.new.values ≡ spec.first_different (self.old.values ++ spec.expr_constants e.now)) }
    {
        match &e.form {
            ExprForm::Const { boolean: true, .. } => Ok(()),
            ExprForm::Const {
                boolean: false,
                value,
            } => self.constant(*value),
            ExprForm::Value(access) => self.access(access),
            ExprForm::Unary { of, .. } => self.expr(of.get()),
            ExprForm::Binary { left, right, .. } => {
                self.expr(left.get())?;
                self.expr(right.get())
            }
            ExprForm::Call { actuals, .. } => self.actuals(actuals.as_slice()),
        }
    }

    #[cycle(constants)]
    fn access(&mut self, access: &Access) -> Result<(), AllocError>
        ensures { OnOk result (self.new.values ≡ spec.first_different (self.old.values ++ spec.access_constants access.now)) }
    {
        self.exprs(access.subscripts.as_slice())
    }

    #[cycle(constants)]
    fn exprs(&mut self, exprs: &[Expr]) -> Result<(), AllocError>
        ensures { OnOk result (self.new.values ≡ spec.first_different (self.old.values ++ spec.exprs_constants exprs.now)) }
    {
        for e in exprs {
            self.expr(e)?;
        }
        Ok(())
    }

    #[cycle(constants)]
    fn actuals(&mut self, actuals: &[Actual]) -> Result<(), AllocError>
        ensures { OnOk result (self.new.values ≡ spec.first_different (self.old.values ++ spec.actuals_constants actuals.now)) }
    {
        for a in actuals {
            self.actual(a)?;
        }
        Ok(())
    }

    #[cycle(constants)]
    fn actual(&mut self, a: &Actual) -> Result<(), AllocError>
        ensures { OnOk result (self.new.values ≡ spec.first_different (self.old.values ++ spec.actual_constants a.now)) }
    {
        match a {
            Actual::Value(e) => self.expr(e),
            Actual::Whole(access) => self.access(access),
            Actual::Var(access) => self.access(access),
        }
    }

    fn accesses(&mut self, accesses: &[Access]) -> Result<(), AllocError>
        ensures { OnOk result (self.new.values ≡ spec.first_different (self.old.values ++ spec.accesses_constants accesses.now)) }
    {
        for access in accesses {
            self.access(access)?;
        }
        Ok(())
    }

    fn items(&mut self, items: &[WriteItem]) -> Result<(), AllocError>
        ensures { OnOk result (self.new.values ≡ spec.first_different (self.old.values ++ spec.items_constants items.now)) }
    {
        for item in items {
            self.item(item)?;
        }
        Ok(())
    }

    /// Of a parameter of `write`, its value before its width.
    fn item(&mut self, item: &WriteItem) -> Result<(), AllocError>
        ensures { OnOk result (self.new.values ≡ spec.first_different (self.old.values ++ spec.item_constants item.now)) }
    {
        self.written(&item.value)?;
        match &item.width {
            None => Ok(()),
            Some(e) => self.expr(e),
        }
    }

    fn written(&mut self, value: &WriteValue) -> Result<(), AllocError>
        ensures { OnOk result (self.new.values ≡ spec.first_different (self.old.values ++ spec.written_constants value.now)) }
    {
        match value {
            WriteValue::Value(e) => self.expr(e),
            WriteValue::Text { .. } => Ok(()),
        }
    }

    /// Of the assertions before a statement.
    fn assertions(&mut self, program: &Program, listed: &[u32]) -> Result<(), AllocError>
        ensures { OnOk result (self.new.values ≡ spec.first_different (self.old.values ++ spec.listed_constants (tables program.now) program.now.asserts listed.now)) }
    {
        for a in listed {
            self.condition(program, *a)?;
        }
        Ok(())
    }

    fn condition(&mut self, program: &Program, a: u32) -> Result<(), AllocError>
        ensures { OnOk result (self.new.values ≡ spec.first_different (self.old.values ++ spec.condition_constants (slice_get program.now.asserts a))) }
    {
        match at(program.asserts.as_slice(), a as usize) {
            None => Ok(()),
            Some(assertion) => self.expr(&assertion.cond),
        }
    }

    #[cycle(text)]
    fn sequence(&mut self, program: &Program, body: &[Statement]) -> Result<(), AllocError>
        ensures { OnOk result (self.new.values ≡ spec.first_different (self.old.values ++ spec.statements_constants (tables program.now) program.now.asserts body.now)) }
    {
        for s in body {
            self.statement(program, s)?;
        }
        Ok(())
    }

    /// Of the arms of a `case`, whose constants count where its selector is an integer.
    #[cycle(text)]
    fn arms(&mut self, program: &Program, boolean: bool, arms: &[Arm]) -> Result<(), AllocError>
        ensures { OnOk result (self.new.values ≡ spec.first_different (self.old.values ++ joined (map (spec.of_arm boolean) (map (spec.arm_constants (tables program.now) program.now.asserts) arms.now)))) }
    {
        for arm in arms {
            if !boolean {
                self.constants(arm.consts.as_slice())?;
            }
            self.statement(program, &arm.body)?;
        }
        Ok(())
    }

    #[cycle(text)]
    fn statement(&mut self, program: &Program, s: &Statement) -> Result<(), AllocError>
        ensures { OnOk result (self.new.values ≡ spec.first_different (self.old.values ++ spec.statement_constants (tables program.now) program.now.asserts s.now)) }
    {
        if self.is_full() {
            return Ok(());
        }
        self.assertions(program, s.asserts.as_slice())?;
        self.body(program, &s.body)
    }

    #[cycle(text)]
    fn body(&mut self, program: &Program, body: &Body) -> Result<(), AllocError>
        ensures { OnOk result (self.new.values ≡ spec.first_different (self.old.values ++ spec.body_constants (tables program.now) program.now.asserts body.now)) }
    {
        match body {
            Body::Empty | Body::Goto { .. } => Ok(()),
            Body::Assign { to, value } => {
                self.access(to)?;
                self.expr(value)
            }
            Body::Copy { to, from } => {
                self.access(to)?;
                self.access(from)
            }
            Body::Call { actuals, .. } => self.actuals(actuals.as_slice()),
            Body::Read { to, .. } => self.accesses(to.as_slice()),
            Body::Write { items, .. } => self.items(items.as_slice()),
            Body::Begin { body, .. } => self.sequence(program, body.as_slice()),
            Body::If { cond, yes, no } => {
                self.expr(cond)?;
                self.statement(program, yes.get())?;
                match no {
                    None => Ok(()),
                    Some(no) => self.statement(program, no.get()),
                }
            }
            Body::Case { of, arms } => {
                self.expr(of)?;
                self.arms(program, is_boolean(program, of), arms.as_slice())
            }
            Body::While { cond, body } => {
                self.expr(cond)?;
                self.statement(program, body.get())
            }
            Body::Repeat { body, cond, .. } => {
                self.sequence(program, body.as_slice())?;
                self.expr(cond)
            }
            Body::For {
                first,
                last,
                body,
                ..
            } => {
                self.expr(first)?;
                self.expr(last)?;
                self.statement(program, body.get())
            }
        }
    }
}
