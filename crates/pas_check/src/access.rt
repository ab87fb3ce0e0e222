//! Variables with their subscripts (ISO 7185, 6.5).

ghost use Rattle.std.specs.Prelude.{◌≡◌, IfOk, OnOk, Some, map};
ghost use Rattle.pas_check.specs.Expr as spec;
ghost use Rattle.pas_check.specs.Expr.{access_found, found, found_writes, place_of};
ghost use Rattle.pas_check.specs.Forms as forms;
ghost use Rattle.pas_check.specs.Forms.{access_form, expr_form, operand_form, reached_form};
ghost use Rattle.pas_check.specs.Outcome.{Gives};
ghost use Rattle.pas_check.specs.Sight.{host_at, sight};
ghost use Rattle.pas_check.specs.Written.{written, writes_in_turn};

use crate::expr::Typed;
use crate::fault::{Fault, Rule};
use crate::meaning::{Meaning, Variable};
use crate::seen::{Made, Seen};
use pas_program::{Access, Expr};
use px_base::Span;
use sqlite_items::Items;

/// A variable or a part of one, with its type.
#[derive(Drop)]
pub struct Reached {
    pub access: Access,
    pub of_type: u32,
    /// The variable itself, where there is no subscript.
    pub whole: Option<Variable>,
}

impl<'t> Seen<'t> {
    /// The variable that a name stands for.
    #[tactic(auto, unfolding(crate::specs::Expr::variable_named))]
    pub fn variable_named(&self, made: &mut Made, name: Span) -> Result<Variable, Fault>
        ensures value { Gives (λ x. x) (spec.variable_named (sight self.now) name) result }
        ensures writes { written made.new ≡ written made.old }
        ensures kept { made.new.built ≡ made.old.built }
    {
        match self.meaning(made, name)? {
            Meaning::Variable(variable) => Ok(variable),
            _ => Err(Rule::Kind.broken(name.start)),
        }
    }

    /// A variable as it is read or passed.
    #[tactic(auto, unfolding(crate::specs::Expr::access_found, crate::specs::Expr::accessed, crate::specs::Forms::access_form, crate::specs::Forms::access_by))]
    #[cycle(expr)]
    pub fn access(&self, made: &mut Made, access: &pas_tree::Access) -> Result<Reached, Fault>
        ensures value { Gives place_of (access_found (sight self.now) access.now).place result }
        ensures writes { OnOk result (written made.new ≡ (access_found (sight self.now) access.now).writes (written made.old)) }
        ensures form { IfOk result (λ r. access_form (sight self.now) access.now made.old.built ≡ Some (r, made.new.built)) }
    {
        let variable = self.variable_named(made, access.name)?;
        self.reached(made, variable, access.name, access.subscripts.as_slice())
    }

    /// The part of a variable that subscripts lead to.
    #[tactic(auto, unfolding(crate::specs::Expr::reached, crate::specs::Forms::reached_form))]
    #[cycle(expr)]
    pub fn reached(
        &self,
        made: &mut Made,
        variable: Variable,
        name: Span,
        subscripts: &[pas_tree::Expr],
    ) -> Result<Reached, Fault>
        ensures value { Gives place_of (spec.reached (sight self.now) variable (map (found (sight self.now)) subscripts.now)) result }
        ensures writes { OnOk result (written made.new ≡ writes_in_turn found_writes (map (found (sight self.now)) subscripts.now) (written made.old)) }
        ensures form { IfOk result (λ r. reached_form (sight self.now) variable name.start (map (expr_form (sight self.now)) subscripts.now) made.old.built ≡ Some (r, made.new.built)) }
    {
        let mut of_type = variable.of_type;
        let mut list = Items::new(self.alloc);
        for subscript in subscripts {
            let Some((index, element)) = self.parts(of_type) else {
                return Err(self.first_fault(made, subscript, Rule::Type));
            };
            let value = self.subscript(made, subscript, index)?;
            list.push(value).map_err(Fault::Memory)?;
            of_type = element;
        }
        Ok(Reached {
            access: Access {
                var: variable.number,
                subscripts: list,
                at: name.start,
            },
            of_type,
            whole: if subscripts.is_empty() {
                Some(variable)
            } else {
                None
            },
        })
    }

    /// A variable without subscripts.
    pub fn alone(&self, variable: Variable, name: Span) -> Reached
        ensures place { place_of result ≡ record { of_type = variable.of_type; itself = Some variable } }
        ensures form { result ≡ forms.alone variable name.start }
    {
        Reached {
            access: Access {
                var: variable.number,
                subscripts: Items::new(self.alloc),
                at: name.start,
            },
            of_type: variable.of_type,
            whole: Some(variable),
        }
    }

    /// A subscript, which has the host of the index type.
    #[tactic(auto, unfolding(crate::specs::Expr::subscript, crate::specs::Sight::sight, crate::specs::Forms::operand_form, crate::specs::Forms::scalar_form))]
    #[cycle(expr)]
    fn subscript(
        &self,
        made: &mut Made,
        subscript: &pas_tree::Expr,
        index: u32,
    ) -> Result<Expr, Fault>
        ensures value { Gives (λ e. tt) (spec.subscript (sight self.now) (found (sight self.now) subscript.now) index) result }
        ensures writes { OnOk result (written made.new ≡ (found (sight self.now) subscript.now).writes (written made.old)) }
        ensures form { IfOk result (λ r. operand_form (expr_form (sight self.now) subscript.now) made.old.built ≡ Some (r, made.new.built)) }
    {
        let at = self.first(subscript);
        match self.expr(made, subscript)? {
            Typed::Scalar { expr, boolean } if self.is_host(index, boolean) => Ok(expr),
            _ => Err(Rule::Type.broken(at)),
        }
    }

    /// Whether a type is a scalar of this host.
    #[tactic(auto, unfolding(crate::specs::Sight::sight))]
    pub fn is_host(&self, t: u32, boolean: bool) -> bool
        ensures { result ≡ spec.is_host (host_at (sight self.now) t) boolean }
    {
        match self.types.host(t) {
            Some(host) => host == boolean,
            None => false,
        }
    }
}
