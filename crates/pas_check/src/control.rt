//! Control variables (ISO 7185, 6.8.3.9).

ghost use Rattle.std.specs.Prelude.{◌≡◌, false, IfOk, OnOk, Some};
ghost use Rattle.pas_program.specs.Tables.{is_kind};
ghost use Rattle.pas_program.specs.declared.variable.VarKind.TheVariants as kind;
ghost use Rattle.pas_check.specs.Blocks.{written_in};
ghost use Rattle.pas_check.specs.Control as spec;
ghost use Rattle.pas_check.specs.Control.{all_threatened, threatens};
ghost use Rattle.pas_check.specs.Expr.{found};
ghost use Rattle.pas_check.specs.Forms.{expr_form};
ghost use Rattle.pas_check.specs.Outcome.{Gives};
ghost use Rattle.pas_check.specs.Sight.{Sight, sight};
ghost use Rattle.pas_check.specs.StatementForms.{for_form, for_head_form, statement_form};
ghost use Rattle.pas_check.specs.Statements.{for_head, over, stated};
ghost use Rattle.pas_check.specs.Writes.{statement_writes};
ghost use Rattle.pas_check.specs.Written.{written};

use crate::checker::Checker;
use crate::fault::{Fault, Rule};
use crate::meaning::{Meaning, Variable};
use crate::seen::{Made, Seen};
use pas_program::{Body, Expr, VarKind};
use px_base::Span;
use std::alloc::AllocError;

impl<'t> Seen<'t> {
    /// The control variable of a `for` and its host: a scalar of the variable part of the closest block that nothing
    /// threatens.
    pub fn control(&self, made: &mut Made, name: Span) -> Result<(Variable, bool), Fault>
        ensures value { Gives (λ r. r) (spec.controlled (sight self.now) name) result }
        ensures writes { written made.new ≡ written made.old }
        ensures kept { made.new.built ≡ made.old.built }
    {
        let meaning = self.meaning(made, name)?;
        self.control_meant(meaning, name.start)
    }

    #[tactic(auto, unfolding(crate::specs::Sight::sight))]
    fn control_meant(&self, meaning: Meaning, at: u32) -> Result<(Variable, bool), Fault>
        ensures value { Gives (λ r. r) (spec.control_by (sight self.now) meaning at) result }
    {
        match meaning {
            Meaning::Variable(variable) => match self.types.host(variable.of_type) {
                Some(boolean) => {
                    if self.is_free(variable) {
                        Ok((variable, boolean))
                    } else {
                        Err(Rule::Control.broken(at))
                    }
                }
                None => Err(Rule::Control.broken(at)),
            },
            Meaning::Routine { head, .. } => match self.result_of(head) {
                Some(_) => Err(Rule::Control.broken(at)),
                None => Err(Rule::Kind.broken(at)),
            },
            _ => Err(Rule::Kind.broken(at)),
        }
    }

    /// Whether a variable is one of the variable part of the block, which nothing threatens.
    #[tactic(auto, unfolding(crate::specs::Sight::sight))]
    fn is_free(&self, variable: Variable) -> bool
        ensures { result ≡ spec.is_free (sight self.now) variable }
    {
        is_local(variable)
            && variable.level == self.level
            && !self.threatened.contains_key(&variable.at)
            && !self.looping.contains_key(&variable.at)
    }
}

/// Whether a variable is one of a variable part.
fn is_local(variable: Variable) -> bool
    ensures { result ≡ is_kind variable.kind kind.Local }
{
    match variable.kind {
        VarKind::Local => true,
        VarKind::Value | VarKind::Var | VarKind::Result | VarKind::Slot | VarKind::Bound => false,
    }
}

impl<'t> Seen<'t> {
    /// A `for` whose word stands at `at`, with its control variable and its two bounds.
    #[tactic(auto, unfolding(crate::specs::Statements::for_head, crate::specs::StatementForms::for_head_form, crate::specs::Written::written))]
    pub fn for_head(
        &self,
        made: &mut Made,
        control: Span,
        first: &pas_tree::Expr,
        last: &pas_tree::Expr,
        at: Span,
    ) -> Result<ForHead, Fault>
        ensures value { Gives (λ h. h.variable) (for_head (sight self.now) control (found (sight self.now) first.now) (found (sight self.now) last.now)) result }
        ensures writes { OnOk result (written made.new ≡ (found (sight self.now) last.now).writes ((found (sight self.now) first.now).writes (written made.old))) }
        ensures form { IfOk result (λ r. for_head_form (sight self.now) control (expr_form (sight self.now) first.now) (expr_form (sight self.now) last.now) at made.old.built ≡ Some (r, made.new.built)) }
    {
        let (variable, boolean) = self.control(made, control)?;
        let bound = made.built.add_own(at, VarKind::Bound, variable.of_type)?;
        let first = self.of_host(made, first, boolean)?;
        let last = self.of_host(made, last, boolean)?;
        Ok(ForHead {
            variable,
            bound,
            first,
            last,
        })
    }

    /// Takes note that a `for` begins over the variable that is declared at a place.
    #[tactic(auto, unfolding(crate::specs::Sight::sight))]
    fn enter_loop(&mut self, at: u32) -> Result<(), AllocError>
        ensures over { OnOk result (sight self.new ≡ over (sight self.old) at) }
    {
        self.looping.insert(at, ())?;
        Ok(())
    }

    /// Takes note that a routine inside its own threatens the variable that is declared at a place.
    #[tactic(auto, unfolding(crate::specs::Sight::sight))]
    fn threatens(&mut self, at: u32) -> Result<(), AllocError>
        ensures threatened { OnOk result (sight self.new ≡ threatens (sight self.old) at) }
    {
        self.threatened.insert(at, ())?;
        Ok(())
    }

    fn all_threatened(&mut self, threats: &[u32]) -> Result<(), AllocError>
        ensures threatened { OnOk result (sight self.new ≡ all_threatened (sight self.old) threats.now) }
    {
        for at in threats {
            self.threatens(*at)?;
        }
        Ok(())
    }

    /// Takes note that the name of the function with a heading is assigned to.
    #[tactic(auto, unfolding(crate::specs::Sight::sight))]
    fn assigned_to(&mut self, head: usize) -> Result<(), AllocError>
        ensures assigned { OnOk result (sight self.new ≡ spec.assigned_to (sight self.old) head) }
    {
        self.assigned.insert(head, ())?;
        Ok(())
    }

    fn all_assigned(&mut self, heads: &[usize]) -> Result<(), AllocError>
        ensures assigned { OnOk result (sight self.new ≡ spec.all_assigned (sight self.old) heads.now) }
    {
        for head in heads {
            self.assigned_to(*head)?;
        }
        Ok(())
    }

    /// Takes note that it ends.
    #[tactic(auto, unfolding(crate::specs::Sight::sight))]
    fn leave_loop(&mut self, at: u32)
        ensures { (v : Sight) → v.looping at ≡ false → sight self.old ≡ over v at → sight self.new ≡ v }
    {
        self.looping.swap_remove(&at);
    }
}

/// A `for` without its statement.
#[derive(Drop)]
pub struct ForHead {
    variable: Variable,
    bound: u32,
    first: Expr,
    last: Expr,
}

impl<'t> Checker<'t> {
    /// A `for` statement.
    #[tactic(auto, unfolding(crate::specs::Statements::for_head))]
    #[cycle(statement)]
    pub fn for_statement(
        &mut self,
        head: ForHead,
        down: bool,
        body: &pas_tree::Statement,
    ) -> Result<Body, Fault>
        ensures value { Gives (λ b. tt) (stated body.now (over (sight self.old.seen) head.variable.at)) result }
        ensures kept { (sight self.old.seen).looping head.variable.at ≡ false → OnOk result (sight self.new.seen ≡ sight self.old.seen) }
        ensures writes { OnOk result (written self.new.made ≡ statement_writes body.now (over (sight self.old.seen) head.variable.at) (written self.old.made)) }
        ensures form { IfOk result (λ r. for_form head down (statement_form body.now) (sight self.old.seen) self.old.made.built ≡ Some (r, self.new.made.built)) }
    {
        let ForHead {
            variable,
            bound,
            first,
            last,
        } = head;
        self.seen.enter_loop(variable.at).map_err(Fault::Memory)?;
        let body = self.boxed(body)?;
        self.seen.leave_loop(variable.at);
        Ok(Body::For {
            control: variable.number,
            bound,
            first,
            down,
            last,
            body,
        })
    }

    /// Takes note of what the statement part at hand writes, when it ends.
    #[tactic(auto, unfolding(crate::specs::Written::written))]
    pub fn note_written(&mut self) -> Result<(), AllocError>
        ensures noted { OnOk result (sight self.new.seen ≡ written_in (sight self.old.seen) (written self.old.made)) }
        ensures kept { self.new.made.built ≡ self.old.made.built }
    {
        self.seen.all_threatened(self.made.threats.as_slice())?;
        self.seen.all_assigned(self.made.assigned.as_slice())
    }
}
