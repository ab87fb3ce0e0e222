//! Statements (ISO 7185, 6.8).

ghost use Rattle.std.specs.Prelude.{◌≡◌, true, IfErr, IfOk, OnOk, Some, map};
ghost use Rattle.std.specs.Option.{option_map};
ghost use Rattle.pas_check.specs.Expr.{found};
ghost use Rattle.pas_check.specs.Built.{in_order};
ghost use Rattle.pas_check.specs.Forms.{expr_form, operand_form};
ghost use Rattle.pas_check.specs.Outcome.{Gives, IsMemory, each};
ghost use Rattle.pas_check.specs.Sight.{sight};
ghost use Rattle.pas_check.specs.Statement as spec;
ghost use Rattle.pas_check.specs.StatementForms.{assert_added, assert_form, assignment_form, body_form, branch_form, sequence_form, statement_form, value_assigned_form};
ghost use Rattle.pas_check.specs.Statements as whole;
ghost use Rattle.pas_check.specs.Statements.{in_branch, in_turn, stated, stated_body};
ghost use Rattle.pas_check.specs.Writes.{assertion_writes, assignment_writes, body_writes, branch_writes, in_turn_writes, statement_writes};
ghost use Rattle.pas_check.specs.Written.{assigns, writes_in_turn, written};

use crate::access::Reached;
use crate::checker::Checker;
use crate::expr::Typed;
use crate::fault::{Fault, Rule};
use crate::meaning::{Meaning, Variable};
use crate::seen::{Made, Seen};
use pas_program::{Assert, Body, Expr, Statement};
use pas_tree::Assertion;
use px_base::Span;
use sqlite_items::{Boxed, Items};
use std::alloc::AllocError;
use std::mem;

impl<'t> Checker<'t> {
    /// The statements of a sequence. What a test sees is the same before and after each of them.
    #[cycle(statement)]
    pub fn sequence(&mut self, body: &[pas_tree::Statement]) -> Result<Items<Statement>, Fault>
        ensures value { Gives (λ list. tt) (in_turn (map stated body.now) (sight self.old.seen)) result }
        ensures kept { OnOk result (sight self.new.seen ≡ sight self.old.seen) }
        ensures writes { OnOk result (written self.new.made ≡ in_turn_writes (map statement_writes body.now) (sight self.old.seen) (written self.old.made)) }
        ensures form { IfOk result (λ r. sequence_form (sight self.old.seen) body.now self.old.made.built ≡ Some (r, self.new.made.built)) }
    {
        let mut list = Items::new(self.seen.alloc);
        for statement in body {
            let checked = self.statement(statement)?;
            list.push(checked).map_err(Fault::Memory)?;
        }
        Ok(list)
    }

    #[cycle(statement)]
    pub fn statement(&mut self, statement: &pas_tree::Statement) -> Result<Statement, Fault>
        ensures value { Gives (λ s. tt) (stated statement.now (sight self.old.seen)) result }
        ensures kept { OnOk result (sight self.new.seen ≡ sight self.old.seen) }
        ensures writes { OnOk result (written self.new.made ≡ statement_writes statement.now (sight self.old.seen) (written self.old.made)) }
        ensures form { IfOk result (λ r. statement_form statement.now (sight self.old.seen) self.old.made.built ≡ Some (r, self.new.made.built)) }
    {
        let label = self.seen.label_before(statement.label)?;
        let asserts = self.assertions(statement.asserts.as_slice())?;
        let body = self.body(&statement.body, statement.at)?;
        Ok(Statement {
            at: statement.at.start,
            label,
            asserts,
            body,
        })
    }

    #[cycle(statement)]
    pub fn boxed(&mut self, statement: &pas_tree::Statement) -> Result<Boxed<Statement>, Fault>
        ensures value { Gives (λ s. tt) (stated statement.now (sight self.old.seen)) result }
        ensures kept { OnOk result (sight self.new.seen ≡ sight self.old.seen) }
        ensures writes { OnOk result (written self.new.made ≡ statement_writes statement.now (sight self.old.seen) (written self.old.made)) }
        ensures form { IfOk result (λ r. statement_form statement.now (sight self.old.seen) self.old.made.built ≡ Some (r, self.new.made.built)) }
    {
        let checked = self.statement(statement)?;
        Boxed::new(self.seen.alloc, checked).map_err(Fault::Memory)
    }

    /// The `else` of an `if`, where there is one.
    #[cycle(statement)]
    fn branch(
        &mut self,
        statement: &Option<Boxed<pas_tree::Statement>>,
    ) -> Result<Option<Boxed<Statement>>, Fault>
        ensures value { Gives (λ s. tt) (in_branch (option_map stated statement.now) (sight self.old.seen)) result }
        ensures kept { OnOk result (sight self.new.seen ≡ sight self.old.seen) }
        ensures writes { OnOk result (written self.new.made ≡ branch_writes (option_map statement_writes statement.now) (sight self.old.seen) (written self.old.made)) }
        ensures form { IfOk result (λ r. branch_form (option_map statement_form statement.now) (sight self.old.seen) self.old.made.built ≡ Some (r, self.new.made.built)) }
    {
        match statement {
            Some(statement) => Ok(Some(self.boxed(statement.get())?)),
            None => Ok(None),
        }
    }

    /// The numbers of the assertions of a statement.
    fn assertions(&mut self, assertions: &[Assertion]) -> Result<Items<u32>, Fault>
        ensures value { Gives (λ list. tt) (each (whole.asserted (sight self.old.seen)) assertions.now) result }
        ensures kept { OnOk result (sight self.new.seen ≡ sight self.old.seen) }
        ensures writes { OnOk result (written self.new.made ≡ writes_in_turn (assertion_writes (sight self.old.seen)) assertions.now (written self.old.made)) }
        ensures form { IfOk result (λ r. in_order (assert_form (sight self.old.seen)) assertions.now self.old.made.built ≡ Some (r, self.new.made.built)) }
    {
        let mut numbers = Items::new(self.seen.alloc);
        for assertion in assertions {
            let cond = self.asserted(assertion)?;
            let number = self.made.add_assert(assertion, cond)?;
            numbers.push(number).map_err(Fault::Memory)?;
        }
        Ok(numbers)
    }

    /// What an assertion asserts.
    #[tactic(auto, unfolding(crate::specs::Statements::asserted, crate::specs::Sight::sight))]
    fn asserted(&mut self, assertion: &Assertion) -> Result<Expr, Fault>
        ensures value { Gives (λ x. tt) (whole.asserted (sight self.old.seen) assertion.now) result }
        ensures kept { OnOk result (sight self.new.seen ≡ sight self.old.seen) }
        ensures writes { OnOk result (written self.new.made ≡ assertion_writes (sight self.old.seen) assertion.now (written self.old.made)) }
        ensures form { IfOk result (λ r. operand_form (expr_form (record (sight self.old.seen) { asserting = true }) assertion.now.cond) self.old.made.built ≡ Some (r, self.new.made.built)) }
    {
        let outside = mem::replace(&mut self.seen.asserting, true);
        let cond = self.seen.of_host(&mut self.made, &assertion.cond, true)?;
        self.seen.asserting = outside;
        Ok(cond)
    }

    #[tactic(auto, unfolding(crate::specs::Statements::stated, crate::specs::Statements::stated_body, crate::specs::Statements::stated_arm, crate::specs::Writes::statement_writes, crate::specs::Writes::body_writes, crate::specs::Writes::arm_writes, crate::specs::StatementForms::statement_form, crate::specs::StatementForms::body_form, crate::specs::StatementForms::arm_form))]
    #[cycle(statement)]
    fn body(&mut self, body: &pas_tree::Body, at: Span) -> Result<Body, Fault>
        ensures value { Gives (λ b. tt) (stated_body body.now at.start (sight self.old.seen)) result }
        ensures kept { OnOk result (sight self.new.seen ≡ sight self.old.seen) }
        ensures writes { OnOk result (written self.new.made ≡ body_writes body.now (sight self.old.seen) (written self.old.made)) }
        ensures form { IfOk result (λ r. body_form body.now at (sight self.old.seen) self.old.made.built ≡ Some (r, self.new.made.built)) }
    {
        match body {
            pas_tree::Body::Empty => Ok(Body::Empty),
            pas_tree::Body::Call { name, actuals } => {
                self.seen.call(&mut self.made, *name, actuals.as_slice())
            }
            pas_tree::Body::Assign { to, value } => {
                self.seen.assignment(&mut self.made, to, value)
            }
            pas_tree::Body::Goto { label } => self.seen.goto(*label, at.start),
            pas_tree::Body::Begin { body } => Ok(Body::Begin {
                body: self.sequence(body.as_slice())?,
                end: at.start,
            }),
            pas_tree::Body::If { cond, yes, no } => Ok(Body::If {
                cond: self.seen.of_host(&mut self.made, cond, true)?,
                yes: self.boxed(yes.get())?,
                no: self.branch(no)?,
            }),
            pas_tree::Body::Case { of, arms } => {
                let (of, boolean) = self.seen.scalar(&mut self.made, of)?;
                let arms = self.arms(arms.as_slice(), boolean)?;
                Ok(Body::Case { of, arms })
            }
            pas_tree::Body::While { cond, body } => Ok(Body::While {
                cond: self.seen.of_host(&mut self.made, cond, true)?,
                body: self.boxed(body.get())?,
            }),
            pas_tree::Body::Repeat { body, until, cond } => Ok(Body::Repeat {
                body: self.sequence(body.as_slice())?,
                at: until.start,
                cond: self.seen.of_host(&mut self.made, cond, true)?,
            }),
            pas_tree::Body::For {
                control,
                first,
                down,
                last,
                body,
            } => {
                let head = self
                    .seen
                    .for_head(&mut self.made, *control, first, last, at)?;
                self.for_statement(head, *down, body.get())
            }
        }
    }
}

impl Made {
    /// The number of an assertion that asserts this.
    #[tactic(auto, unfolding(crate::specs::Written::written))]
    fn add_assert(&mut self, assertion: &Assertion, cond: Expr) -> Result<u32, Fault>
        ensures form { IfOk result (λ n. assert_added assertion.now cond self.old.built ≡ (n, self.new.built)) }
        ensures writes { written self.new ≡ written self.old }
        ensures memory { IfErr result IsMemory }
    {
        let assert = Assert {
            routine: self.built.frame.routine,
            sometime: assertion.sometime,
            cond,
            at: assertion.span.start,
        };
        match self.built.add_assert(assert) {
            Ok(number) => Ok(number),
            Err(error) => Err(Fault::Memory(error)),
        }
    }
}

impl<'t> Seen<'t> {
    /// An assignment. Takes note of the function whose result it assigns to, if it does so.
    #[tactic(auto, unfolding(crate::specs::Statements::assignment))]
    fn assignment(
        &self,
        made: &mut Made,
        to: &pas_tree::Access,
        value: &pas_tree::Expr,
    ) -> Result<Body, Fault>
        ensures value { Gives (λ b. tt) (whole.assignment (sight self.now) to.now value.now) result }
        ensures writes { OnOk result (written made.new ≡ assignment_writes (sight self.now) to.now value.now (written made.old)) }
        ensures form { IfOk result (λ r. assignment_form (sight self.now) to.now value.now made.old.built ≡ Some (r, made.new.built)) }
    {
        let (body, function) = self.target_and_value(made, to, value)?;
        match function {
            Some(head) => assign_result(made, head).map_err(Fault::Memory)?,
            None => (),
        }
        Ok(body)
    }

    /// The target and the value of an assignment, and the function whose result is the target, if it is one.
    #[tactic(auto, unfolding(crate::specs::Statement::assigned))]
    fn target_and_value(
        &self,
        made: &mut Made,
        to: &pas_tree::Access,
        value: &pas_tree::Expr,
    ) -> Result<(Body, Option<usize>), Fault>
        ensures value { Gives (λ b. b.1) (spec.assigned (sight self.now) to.now.name (map (found (sight self.now)) to.now.subscripts) (found (sight self.now) value.now)) result }
        ensures writes { IfOk result (λ b. assigns b.1 (written made.new) ≡ assignment_writes (sight self.now) to.now value.now (written made.old)) }
        ensures form { IfOk result (λ r. assignment_form (sight self.now) to.now value.now made.old.built ≡ Some (r.0, made.new.built)) }
    {
        let meaning = self.meaning(made, to.name)?;
        let (variable, function) = self.target(meaning, to.name.start)?;
        let target = self.reached(made, variable, to.name, to.subscripts.as_slice())?;
        self.threaten(made, target.whole, to.name.start)?;
        let body = self.assigned(made, target, value)?;
        Ok((body, function))
    }

    /// What is assigned to: a variable, or inside a function's block its result.
    fn target(&self, meaning: Meaning, at: u32) -> Result<(Variable, Option<usize>), Fault>
        ensures value { Gives (λ r. r) (spec.target_by (sight self.now) meaning at) result }
    {
        match meaning {
            Meaning::Variable(variable) => Ok((variable, None)),
            Meaning::Routine { head, .. } => match self.result_of(head) {
                Some(own) => Ok((own, Some(head))),
                None => Err(Rule::Kind.broken(at)),
            },
            _ => Err(Rule::Kind.broken(at)),
        }
    }

    /// The assignment of a value that fits its target.
    #[tactic(auto, unfolding(crate::specs::Statement::value_assigned))]
    fn assigned(
        &self,
        made: &mut Made,
        target: Reached,
        value: &pas_tree::Expr,
    ) -> Result<Body, Fault>
        ensures value { Gives (λ b. tt) (spec.value_assigned (sight self.now) target.of_type (found (sight self.now) value.now)) result }
        ensures writes { OnOk result (written made.new ≡ (found (sight self.now) value.now).writes (written made.old)) }
        ensures form { IfOk result (λ r. value_assigned_form target.access (expr_form (sight self.now) value.now) made.old.built ≡ Some (r, made.new.built)) }
    {
        match self.expr(made, value)? {
            Typed::Scalar { expr, boolean } if self.is_host(target.of_type, boolean) => {
                Ok(Body::Assign {
                    to: target.access,
                    value: expr,
                })
            }
            Typed::Array { access, of_type } if of_type == target.of_type => Ok(Body::Copy {
                to: target.access,
                from: access,
            }),
            _ => Err(Rule::Type.broken(self.first(value))),
        }
    }
}

#[tactic(auto, unfolding(crate::specs::Written::written))]
fn assign_result(made: &mut Made, head: usize) -> Result<(), AllocError>
    ensures writes { OnOk result (written made.new ≡ assigns (Some head) (written made.old)) }
    ensures kept { made.new.built ≡ made.old.built }
{
    made.assigned.push(head)?;
    Ok(())
}
