//! Actual parameters (ISO 7185, 6.6.3).

ghost use Rattle.std.specs.Prelude.{◌≡◌, [], ◌∷◌, ◌++◌, IfErr, IfOk, OnOk, Some, map};
ghost use Rattle.pas_tree.specs.declared.expr.ActualValue.TheVariants as actual_value;
ghost use Rattle.pas_check.specs.Expr as spec;
ghost use Rattle.pas_check.specs.Expr.{all_passed, callee_at, expression_by, formals_at, found, given, place_of};
ghost use Rattle.pas_check.specs.Forms.{all_passed_form, alone_meant, expr_form, expression_form, given_form, passed_by_value_form, passed_by_var_form, passed_form, passed_to_form};
ghost use Rattle.pas_check.specs.Outcome.{Gives, IsMemory};
ghost use Rattle.pas_check.specs.Sight.{sight};
ghost use Rattle.pas_check.specs.Written.{writes_whole, written};

use crate::access::Reached;
use crate::expr::Typed;
use crate::fault::{Fault, Rule};
use crate::meaning::{Meaning, Variable};
use crate::seen::{Made, Seen};
use pas_program::Actual;
use pas_tree::ActualValue;
use px_base::Span;
use sqlite_items::Items;

/// A parameter as its callers see it.
#[derive(Clone, Copy, Debug, PartialEq, Eq)]
pub struct Formal {
    pub by_var: bool,
    pub of_type: u32,
}

impl<'t> Seen<'t> {
    /// The expression of an actual, which is no string.
    #[tactic(auto, unfolding(crate::specs::Expr::given))]
    pub fn value_actual<'e>(
        &self,
        actual: &'e pas_tree::Actual,
    ) -> Result<&'e pas_tree::Expr, Fault>
        ensures written { IfOk result (λ value. actual.now.value ≡ actual_value.Value value.now) }
        ensures value { Gives (λ e. found (sight self.now) e.now) (expression_by (given (sight self.now) actual.now).value) result }
        ensures form { IfOk result (λ e. expression_form (given_form (sight self.now) actual.now).value ≡ Some (expr_form (sight self.now) e.now)) }
    {
        match &actual.value {
            ActualValue::Value(value) => Ok(value),
            ActualValue::Text(span) => Err(Rule::Type.broken(span.start)),
        }
    }

    /// Tests that an actual has no width.
    #[tactic(auto, unfolding(crate::specs::Expr::given))]
    pub fn no_width(&self, actual: &pas_tree::Actual) -> Result<(), Fault>
        ensures value { Gives (λ u. u) (spec.no_width (given (sight self.now) actual.now).width) result }
    {
        match &actual.width {
            Some(width) => Err(Rule::Type.broken(self.first(width))),
            None => Ok(()),
        }
    }

    /// The actuals of a routine, as many as it has formals.
    #[cycle(expr)]
    pub fn actuals(
        &self,
        made: &mut Made,
        head: usize,
        actuals: &[pas_tree::Actual],
    ) -> Result<Items<Actual>, Fault>
        ensures value { Gives (λ list. tt) (all_passed (sight self.now) (formals_at (sight self.now) head) (map (given (sight self.now)) actuals.now)) result }
        ensures writes { OnOk result (written made.new ≡ spec.all_passed_writes (sight self.now) (formals_at (sight self.now) head) (map (given (sight self.now)) actuals.now) (written made.old)) }
        ensures form { IfOk result (λ r. all_passed_form (formals_at (sight self.now) head) (map (given_form (sight self.now)) actuals.now) made.old.built ≡ Some (r, made.new.built)) }
    {
        let mut list = Items::new(self.alloc);
        for (k, actual) in actuals.iter().enumerate() {
            let passed = self.passed(made, self.formal(head, k), actual)?;
            list.push(passed).map_err(Fault::Memory)?;
        }
        Ok(list)
    }

    /// An actual for a formal, if there is one.
    #[tactic(auto, unfolding(crate::specs::Expr::passed, crate::specs::Forms::passed_form))]
    #[cycle(expr)]
    fn passed(
        &self,
        made: &mut Made,
        formal: Option<Formal>,
        actual: &pas_tree::Actual,
    ) -> Result<Actual, Fault>
        ensures value { Gives (λ a. tt) (spec.passed (sight self.now) formal (given (sight self.now) actual.now)) result }
        ensures writes { OnOk result (written made.new ≡ spec.passed_writes (sight self.now) formal (given (sight self.now) actual.now) (written made.old)) }
        ensures form { IfOk result (λ r. passed_form formal (given_form (sight self.now) actual.now) made.old.built ≡ Some (r, made.new.built)) }
    {
        let value = self.value_actual(actual)?;
        let Some(formal) = formal else {
            return Err(Rule::ActualCount.broken(self.first(value)));
        };
        let passed = self.passed_to(made, value, formal)?;
        self.no_width(actual)?;
        Ok(passed)
    }

    #[cycle(expr)]
    fn passed_to(
        &self,
        made: &mut Made,
        value: &pas_tree::Expr,
        formal: Formal,
    ) -> Result<Actual, Fault>
        ensures value { Gives (λ a. tt) (spec.passed_to (sight self.now) formal (found (sight self.now) value.now)) result }
        ensures writes { OnOk result (written made.new ≡ spec.passed_writes_by (sight self.now) (Some formal) (found (sight self.now) value.now) (written made.old)) }
        ensures form { IfOk result (λ r. passed_to_form formal (expr_form (sight self.now) value.now) made.old.built ≡ Some (r, made.new.built)) }
    {
        if formal.by_var {
            self.passed_by_var(made, value, formal.of_type)
        } else {
            self.passed_by_value(made, value, formal.of_type)
        }
    }

    #[tactic(auto, unfolding(crate::specs::Expr::passed_by_value, crate::specs::Forms::passed_by_value_form))]
    #[cycle(expr)]
    fn passed_by_value(
        &self,
        made: &mut Made,
        value: &pas_tree::Expr,
        of_type: u32,
    ) -> Result<Actual, Fault>
        ensures value { Gives (λ a. tt) (spec.passed_by_value (sight self.now) (found (sight self.now) value.now) of_type) result }
        ensures writes { OnOk result (written made.new ≡ (found (sight self.now) value.now).writes (written made.old)) }
        ensures form { IfOk result (λ r. passed_by_value_form (expr_form (sight self.now) value.now) made.old.built ≡ Some (r, made.new.built)) }
    {
        match self.expr(made, value)? {
            Typed::Scalar { expr, boolean } if self.is_host(of_type, boolean) => {
                Ok(Actual::Value(expr))
            }
            Typed::Array {
                access,
                of_type: own,
            } if own == of_type => Ok(Actual::Whole(access)),
            _ => Err(Rule::Type.broken(self.first(value))),
        }
    }

    #[tactic(auto, unfolding(crate::specs::Expr::passed_by_var, crate::specs::Forms::passed_by_var_form))]
    #[cycle(expr)]
    fn passed_by_var(
        &self,
        made: &mut Made,
        value: &pas_tree::Expr,
        of_type: u32,
    ) -> Result<Actual, Fault>
        ensures value { Gives (λ a. tt) (spec.passed_by_var (sight self.now) (found (sight self.now) value.now) of_type) result }
        ensures writes { OnOk result (written made.new ≡ spec.variable_writes (sight self.now) (found (sight self.now) value.now) (written made.old)) }
        ensures form { IfOk result (λ r. passed_by_var_form (expr_form (sight self.now) value.now) made.old.built ≡ Some (r, made.new.built)) }
    {
        let reached = self.variable_of(made, value)?;
        if reached.of_type != of_type {
            return Err(Rule::VarActual.broken(self.first(value)));
        }
        self.threaten(made, reached.whole, self.first(value))?;
        Ok(Actual::Var(reached.access))
    }

    /// The variable that an expression is.
    #[tactic(auto, unfolding(crate::specs::Expr::found, crate::specs::Expr::access_found, crate::specs::Forms::expr_form, crate::specs::Forms::access_form))]
    #[cycle(expr)]
    pub fn variable_of(&self, made: &mut Made, value: &pas_tree::Expr) -> Result<Reached, Fault>
        ensures value { Gives place_of (found (sight self.now) value.now).variable result }
        ensures writes { OnOk result (written made.new ≡ (found (sight self.now) value.now).writes (written made.old)) }
        ensures form { IfOk result (λ r. (expr_form (sight self.now) value.now).variable made.old.built ≡ Some (r, made.new.built)) }
    {
        match value {
            pas_tree::Expr::Indexed { access, .. } => self.access(made, access),
            pas_tree::Expr::Name { name, actuals, .. } => {
                if actuals.is_empty() {
                    let meaning = self.meaning(made, *name)?;
                    self.variable_meant(meaning, *name)
                } else {
                    Err(self.first_fault(made, value, Rule::VarActual))
                }
            }
            pas_tree::Expr::Number { .. }
            | pas_tree::Expr::Paren { .. }
            | pas_tree::Expr::Not { .. }
            | pas_tree::Expr::Signed { .. }
            | pas_tree::Expr::Binary { .. } => {
                Err(self.first_fault(made, value, Rule::VarActual))
            }
        }
    }

    /// The variable that a name without subscripts and actuals is.
    #[tactic(auto, unfolding(crate::specs::Expr::variable_by))]
    fn variable_meant(&self, meaning: Meaning, name: Span) -> Result<Reached, Fault>
        ensures value { Gives place_of (spec.variable_by (sight self.now) meaning name.start) result }
        ensures form { IfOk result (λ r. alone_meant meaning name.start ≡ Some r) }
    {
        match meaning {
            Meaning::Variable(variable) => Ok(self.alone(variable, name)),
            Meaning::Constant(_) => Err(Rule::VarActual.broken(name.start)),
            Meaning::Routine {
                head,
                function: true,
            } => Err(self.function_alone(head).broken(name.start)),
            Meaning::Required(_) => Err(Rule::ActualCount.broken(name.start)),
            _ => Err(Rule::Kind.broken(name.start)),
        }
    }

    /// The rule that a function without actuals breaks in the place of a variable: where it has formals, that of their
    /// number, which has the lower code.
    fn function_alone(&self, head: usize) -> Rule
        ensures { result ≡ spec.function_alone (callee_at (sight self.now) head) }
    {
        match self.callee(head) {
            Some(callee) if callee.formals != 0 => Rule::ActualCount,
            _ => Rule::VarActual,
        }
    }

    /// Tests a place that writes a whole variable. A threat by a routine inside the variable's own is kept for the `for`
    /// that comes later.
    #[tactic(auto, unfolding(crate::specs::Expr::threatened, crate::specs::Sight::sight))]
    pub fn threaten(&self, made: &mut Made, whole: Option<Variable>, at: u32) -> Result<(), Fault>
        ensures value { Gives (λ u. u) (spec.threatened (sight self.now) whole at) result }
        ensures writes { OnOk result (written made.new ≡ writes_whole (sight self.now).level whole (written made.old)) }
        ensures kept { made.new.built ≡ made.old.built }
    {
        let Some(variable) = whole else {
            return Ok(());
        };
        if variable.level != self.level {
            mark(made, variable)?;
            return Ok(());
        }
        if self.looping.contains_key(&variable.at) {
            return Err(Rule::Control.broken(at));
        }
        Ok(())
    }
}

#[tactic(auto, unfolding(crate::specs::Written::written))]
fn mark(made: &mut Made, variable: Variable) -> Result<(), Fault>
    ensures threats { OnOk result (written made.new ≡ record (written made.old) { threats = (written made.old).threats ++ variable.at ∷ [] }) }
    ensures memory { IfErr result IsMemory }
    ensures kept { made.new.built ≡ made.old.built }
{
    match made.threats.push(variable.at) {
        Ok(()) => Ok(()),
        Err(error) => Err(Fault::Memory(error.into())),
    }
}
