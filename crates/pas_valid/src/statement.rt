//! Statements: their types, what they see, and how much of them there is.

ghost use Rattle.std.specs.Prelude.{◌≡◌, ◌+◌, ◌++◌, ◌∷◌, ◌≤◌, List, ℤ, true, false, OnOk, OnSome, map, length, nat_lt};
ghost use Rattle.std.specs.Bool.{OnTrue};
ghost use Rattle.std.specs.List.{sum, list_all};
ghost use Rattle.pas_program.specs.Each.{all_true, arm_of, constants, each_access, each_actual, each_arm, each_body, each_expr, each_item, each_statement, each_written};
ghost use Rattle.pas_program.specs.Labels.{all_differ};
ghost use Rattle.pas_program.specs.Size.{access_size, actual_size, expr_size, item_size, statement_size, written_size};
ghost use Rattle.pas_program.specs.Tables.{holds_of};
ghost use Rattle.pas_program.specs.Typed.{arm_types, arm_types_fit, body_types_fit, copy_fits, hosted, is_of_host, is_target, item_fits, loop_fits, passed, procedure_fits, reached, statement_types_fit, written_fits};
ghost use Rattle.pas_program.specs.Types as types;
ghost use Rattle.pas_valid.specs.Passing.{known, placed, arm_size, body_size};
ghost use Rattle.pas_valid.specs.Standing.{fresh, has_label};

use crate::expr::{in_host, spend};
use crate::ground::Ground;
use crate::refusal::Refusal;
use pas_program::{Access, Actual, Arm, Body, Expr, Statement, VarKind, WriteItem, WriteValue};
use sqlite_items::at;
use std::alloc::AllocError;
use std::collections::HashSet;

pub fn all_below(numbers: &[u32], limit: usize) -> bool
    ensures { OnTrue result (list_all (λ a. nat_lt a limit) numbers.now ≡ true) }
{
    for number in numbers {
        if *number as usize >= limit {
            return false;
        }
    }
    true
}

fn all_in_host(boolean: bool, values: &[i32]) -> bool
    ensures { OnTrue result (list_all (types.in_host boolean) values.now ≡ true) }
{
    for value in values {
        if !in_host(boolean, *value) {
            return false;
        }
    }
    true
}

/// Puts constants into a set that has none of them.
fn all_new(values: &[i32], seen: &mut HashSet<i32>) -> Result<(), Refusal>
    ensures { OnOk result ((zs : List ℤ) → fresh seen.new zs ≡ true → fresh seen.old (values.now ++ zs) ≡ true) }
{
    for value in values {
        is_new(value, seen)?;
    }
    Ok(())
}

fn is_new(value: &i32, seen: &mut HashSet<i32>) -> Result<(), Refusal>
    ensures { OnOk result ((zs : List ℤ) → fresh seen.new zs ≡ true → fresh seen.old (value.now ∷ zs) ≡ true) }
{
    match seen.insert(*value) {
        Ok(true) => Ok(()),
        Ok(false) => Err(Refusal::Invalid),
        Err(_) => Err(Refusal::Memory(AllocError)),
    }
}

impl<'a> Ground<'a> {
    /// Whether a statement passes. `left` falls at least by the number of its parts.
    #[cycle(statement)]
    pub fn statement(&self, s: &Statement, left: &mut u32) -> Result<(), Refusal>
        ensures types { OnOk result (statement_types_fit (known self.now) s.now ≡ true) }
        ensures scopes { OnOk result (each_statement (placed self.now) s.now ≡ true) }
        ensures size { OnOk result (statement_size s.now + left.new ≤ left.old) }
    {
        if spend(left).is_none() || !self.all_own(s.asserts.as_slice()) {
            return Err(Refusal::Invalid);
        }
        self.body(&s.body, left)
    }

    /// Whether assertions are of the routine at hand.
    fn all_own(&self, numbers: &[u32]) -> bool
        ensures { OnTrue result (list_all (placed self.now).assertion numbers.now ≡ true) }
    {
        for number in numbers {
            if !self.is_own_assertion(*number) {
                return false;
            }
        }
        true
    }

    fn is_own_assertion(&self, number: u32) -> bool
        ensures { result ≡ (placed self.now).assertion number }
    {
        match at(self.asserts, number as usize) {
            Some(assert) => assert.routine == self.routine,
            None => false,
        }
    }

    #[cycle(statement)]
    fn body(&self, body: &Body, left: &mut u32) -> Result<(), Refusal>
        ensures types { OnOk result (body_types_fit (known self.now) body.now ≡ true) }
        ensures scopes { OnOk result (each_body (placed self.now) body.now ≡ true) }
        ensures size { OnOk result (body_size body.now + left.new ≤ left.old) }
    {
        match body {
            Body::Begin { body, .. } => self.sequence(body.as_slice(), left),
            Body::If { cond, yes, no } => {
                if self.of_host(cond, true, left).is_none() {
                    return Err(Refusal::Invalid);
                }
                self.statement(yes.get(), left)?;
                match no {
                    Some(no) => self.statement(no.get(), left),
                    None => Ok(()),
                }
            }
            Body::Case { of, arms } => match self.expr(of, left) {
                Some(host) => self.arms(arms.as_slice(), host, left),
                None => Err(Refusal::Invalid),
            },
            Body::While { cond, body } => {
                if self.of_host(cond, true, left).is_none() {
                    return Err(Refusal::Invalid);
                }
                self.statement(body.get(), left)
            }
            Body::Repeat { body, cond, .. } => {
                self.sequence(body.as_slice(), left)?;
                match self.of_host(cond, true, left) {
                    Some(()) => Ok(()),
                    None => Err(Refusal::Invalid),
                }
            }
            Body::For {
                control,
                bound,
                first,
                last,
                body,
                ..
            } => {
                if self.bounds(*control, *bound, first, last, left).is_none() {
                    return Err(Refusal::Invalid);
                }
                self.statement(body.get(), left)
            }
            _ => match self.simple(body, left) {
                Some(()) => Ok(()),
                None => Err(Refusal::Invalid),
            },
        }
    }

    /// Whether a body without statements in it passes.
    fn simple(&self, body: &Body, left: &mut u32) -> Option<()>
        ensures types { OnSome result (body_types_fit (known self.now) body.now ≡ true) }
        ensures scopes { OnSome result (each_body (placed self.now) body.now ≡ true) }
        ensures size { OnSome result (body_size body.now + left.new ≤ left.old) }
    {
        match body {
            Body::Empty => Some(()),
            Body::Assign { to, value } => self.assignment(to, value, left),
            Body::Copy { to, from } => self.copy(to, from, left),
            Body::Call {
                routine,
                actuals,
                ..
            } => self.procedure(*routine, actuals.as_slice(), left),
            Body::Read { to, .. } => self.targets(to.as_slice(), left),
            Body::Write { items, .. } => self.items(items.as_slice(), left),
            Body::Goto { routine, label } => self.jump(*routine, *label),
            _ => None,
        }
    }

    /// Whether a `goto` to a label of a routine passes.
    fn jump(&self, routine: u32, label: u32) -> Option<()>
        ensures { OnSome result ((placed self.now).jump routine label ≡ true) }
    {
        let around = (routine as usize) < self.routines.len() && self.is_around(routine);
        if around && self.has_label(routine, label) {
            Some(())
        } else {
            None
        }
    }

    fn has_label(&self, routine: u32, label: u32) -> bool
        ensures { result ≡ has_label self.now.labels.now routine label }
    {
        match at(self.labels, routine as usize) {
            Some(labels) => labels.contains(&label),
            None => false,
        }
    }

    /// One statement or more.
    #[cycle(statement)]
    fn sequence(&self, body: &[Statement], left: &mut u32) -> Result<(), Refusal>
        ensures some { OnOk result (nat_lt 0 (length body.now) ≡ true) }
        ensures types { OnOk result (all_true (map (statement_types_fit (known self.now)) body.now) ≡ true) }
        ensures scopes { OnOk result (all_true (map (each_statement (placed self.now)) body.now) ≡ true) }
        ensures size { OnOk result (sum (map statement_size body.now) + left.new ≤ left.old) }
    {
        if body.is_empty() {
            return Err(Refusal::Invalid);
        }
        for statement in body {
            self.statement(statement, left)?;
        }
        Ok(())
    }

    /// The arms of a `case` whose selector has this host.
    #[cycle(statement)]
    fn arms(&self, arms: &[Arm], host: bool, left: &mut u32) -> Result<(), Refusal>
        ensures constants { OnOk result (list_all (types.in_host host) (constants (map (arm_types (known self.now)) arms.now)) ≡ true) }
        ensures differ { OnOk result (all_differ (constants (map (arm_of (placed self.now)) arms.now)) ≡ true) }
        ensures types { OnOk result (all_true (map (λ a. a.0) (map (arm_types (known self.now)) arms.now)) ≡ true) }
        ensures scopes { OnOk result (all_true (map (λ a. a.0) (map (arm_of (placed self.now)) arms.now)) ≡ true) }
        ensures size { OnOk result (sum (map arm_size arms.now) + left.new ≤ left.old) }
    {
        let mut seen = HashSet::new(self.alloc);
        for arm in arms {
            if !all_in_host(host, arm.consts.as_slice()) {
                return Err(Refusal::Invalid);
            }
            all_new(arm.consts.as_slice(), &mut seen)?;
            self.arm(arm, left)?;
        }
        Ok(())
    }

    #[cycle(statement)]
    fn arm(&self, arm: &Arm, left: &mut u32) -> Result<(), Refusal>
        ensures types { OnOk result (arm_types_fit (known self.now) arm.now ≡ true) }
        ensures scopes { OnOk result (each_arm (placed self.now) arm.now ≡ true) }
        ensures size { OnOk result (arm_size arm.now + left.new ≤ left.old) }
    {
        self.statement(&arm.body, left)
    }

    pub fn of_host(&self, e: &Expr, boolean: bool, left: &mut u32) -> Option<()>
        ensures types { OnSome result (is_of_host boolean (hosted (known self.now) e.now) ≡ true) }
        ensures scopes { OnSome result (each_expr (placed self.now) e.now ≡ true) }
        ensures size { OnSome result (expr_size e.now + left.new ≤ left.old) }
    {
        if self.expr(e, left)? == boolean {
            Some(())
        } else {
            None
        }
    }

    fn assignment(&self, to: &Access, value: &Expr, left: &mut u32) -> Option<()>
        ensures value { OnSome result ((hosted (known self.now) value.now).fits ≡ true) }
        ensures target { OnSome result (is_target (known self.now) (hosted (known self.now) value.now).boolean (reached (known self.now) to.now) ≡ true) }
        ensures to_scopes { OnSome result (each_access (placed self.now) to.now ≡ true) }
        ensures value_scopes { OnSome result (each_expr (placed self.now) value.now ≡ true) }
        ensures size { OnSome result (access_size to.now + expr_size value.now + left.new ≤ left.old) }
    {
        let t = self.access(to, left)?;
        let host = self.expr(value, left)?;
        if self.has_host(host, t) {
            Some(())
        } else {
            None
        }
    }

    fn copy(&self, to: &Access, from: &Access, left: &mut u32) -> Option<()>
        ensures types { OnSome result (copy_fits (known self.now) (reached (known self.now) to.now) (reached (known self.now) from.now) ≡ true) }
        ensures to_scopes { OnSome result (each_access (placed self.now) to.now ≡ true) }
        ensures from_scopes { OnSome result (each_access (placed self.now) from.now ≡ true) }
        ensures size { OnSome result (access_size to.now + access_size from.now + left.new ≤ left.old) }
    {
        let t = self.access(to, left)?;
        let u = self.access(from, left)?;
        if t == u && self.is_array(t) {
            Some(())
        } else {
            None
        }
    }

    fn procedure(&self, routine: u32, actuals: &[Actual], left: &mut u32) -> Option<()>
        ensures types { OnSome result (holds_of (procedure_fits (known self.now) (map (passed (known self.now)) actuals.now)) ((known self.now).head_at routine) ≡ true) }
        ensures call { OnSome result ((placed self.now).invoke routine ≡ true) }
        ensures scopes { OnSome result (all_true (map (each_actual (placed self.now)) actuals.now) ≡ true) }
        ensures size { OnSome result (sum (map actual_size actuals.now) + left.new ≤ left.old) }
    {
        if !self.is_callable(routine) {
            return None;
        }
        let callee = at(self.routines, routine as usize)?;
        if callee.result.is_some() {
            return None;
        }
        self.actuals(actuals, callee.formals.as_slice(), left)
    }

    /// Variables of the host `integer`.
    fn targets(&self, to: &[Access], left: &mut u32) -> Option<()>
        ensures types { OnSome result (list_all (λ a. is_target (known self.now) false (reached (known self.now) a)) to.now ≡ true) }
        ensures scopes { OnSome result (all_true (map (each_access (placed self.now)) to.now) ≡ true) }
        ensures size { OnSome result (sum (map (λ a. 1 + access_size a) to.now) + left.new ≤ left.old) }
    {
        for access in to {
            self.target(access, left)?;
        }
        Some(())
    }

    fn target(&self, access: &Access, left: &mut u32) -> Option<()>
        ensures types { OnSome result (is_target (known self.now) false (reached (known self.now) access.now) ≡ true) }
        ensures scopes { OnSome result (each_access (placed self.now) access.now ≡ true) }
        ensures size { OnSome result (1 + access_size access.now + left.new ≤ left.old) }
    {
        spend(left)?;
        let t = self.access(access, left)?;
        if self.has_host(false, t) {
            Some(())
        } else {
            None
        }
    }

    fn items(&self, items: &[WriteItem], left: &mut u32) -> Option<()>
        ensures types { OnSome result (list_all (item_fits (known self.now)) items.now ≡ true) }
        ensures scopes { OnSome result (all_true (map (each_item (placed self.now)) items.now) ≡ true) }
        ensures size { OnSome result (sum (map item_size items.now) + left.new ≤ left.old) }
    {
        for item in items {
            self.item(item, left)?;
        }
        Some(())
    }

    fn item(&self, item: &WriteItem, left: &mut u32) -> Option<()>
        ensures types { OnSome result (item_fits (known self.now) item.now ≡ true) }
        ensures scopes { OnSome result (each_item (placed self.now) item.now ≡ true) }
        ensures size { OnSome result (item_size item.now + left.new ≤ left.old) }
    {
        spend(left)?;
        self.written(&item.value, left)?;
        match &item.width {
            Some(width) => self.of_host(width, false, left),
            None => Some(()),
        }
    }

    fn written(&self, value: &WriteValue, left: &mut u32) -> Option<()>
        ensures types { OnSome result (written_fits (known self.now) value.now ≡ true) }
        ensures scopes { OnSome result (each_written (placed self.now) value.now ≡ true) }
        ensures size { OnSome result (written_size value.now + left.new ≤ left.old) }
    {
        match value {
            WriteValue::Value(value) => {
                let _host = self.expr(value, left)?;
                Some(())
            }
            WriteValue::Text { .. } => Some(()),
        }
    }

    /// The control variable, the hidden one and the bounds of a `for`.
    fn bounds(
        &self,
        control: u32,
        bound: u32,
        first: &Expr,
        last: &Expr,
        left: &mut u32,
    ) -> Option<()>
        ensures types { OnSome result (loop_fits (known self.now) control bound (hosted (known self.now) first.now) (hosted (known self.now) last.now) ≡ true) }
        ensures control { OnSome result ((placed self.now).loop control bound ≡ true) }
        ensures first_scopes { OnSome result (each_expr (placed self.now) first.now ≡ true) }
        ensures last_scopes { OnSome result (each_expr (placed self.now) last.now ≡ true) }
        ensures size { OnSome result (expr_size first.now + expr_size last.now + left.new ≤ left.old) }
    {
        let controlled = self.is_own(VarKind::Local, control) && self.is_visible(control);
        if !(controlled && self.is_own(VarKind::Bound, bound)) {
            return None;
        }
        let var = at(self.vars, control as usize)?;
        let kept = at(self.vars, bound as usize)?;
        let a = self.expr(first, left)?;
        let b = self.expr(last, left)?;
        let typed = self.has_host(a, var.of_type) && self.has_host(b, var.of_type);
        if typed && kept.of_type == var.of_type {
            Some(())
        } else {
            None
        }
    }
}
