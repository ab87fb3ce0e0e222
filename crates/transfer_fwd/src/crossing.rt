//! What a call gives to the class that it enters, and what its return takes back.

ghost use Rattle.std.specs.Prelude.{◌≡◌, ◌<◌, ℕ, Some, length, nat_lt, slice_get, true};
ghost use Rattle.std.specs.List.{list_all};
ghost use Rattle.alias_class.specs.Calls.{links_at};
ghost use Rattle.alias_class.specs.Linked.{LinksShare};
ghost use Rattle.control_points.specs.Judgements.{result_of};
ghost use Rattle.control_points.specs.Checking.{formals_of};
ghost use Rattle.pas_program.specs.declared.routine.Routine.{Routine};
ghost use Rattle.pas_program.specs.declared.variable.VarDef.{VarDef};
ghost use Rattle.pas_program.specs.Checked.{tables};
ghost use Rattle.abstract_expr.specs.Scopes.{cells_of, program_of, scope_of, seen_of};
ghost use Rattle.abstract_expr.specs.Standing.{cells_in, class_in, seen_in};
ghost use Rattle.environment.specs.Environments.{cell_count};
ghost use Rattle.environment.specs.Kept.{room_of};
ghost use Rattle.transfer_fwd.specs.Crossings.{leaving};
ghost use Rattle.transfer_fwd.specs.Standing.{ActualsStand, IsCall};

use crate::action::Actions;
use abstract_expr::{Scope, what_is_visible_is_seen};
use alias_class::{Classes, Link, links_join_the_shared_cells};
use control_points::Flow;
use environment::Env;
use pas_program::Actual;

/// A call from one class into another, by an edge of the flow.
#[derive(Clone, Copy)]
pub(crate) struct Crossing<'a> {
    pub flow: &'a Flow,
    pub classes: &'a Classes,
    /// The class that calls.
    pub outside: u32,
    /// The class that is entered.
    pub inside: u32,
    /// The edge of the call.
    pub site: u32,
    pub links: &'a [Link],
    pub routine: u32,
    pub actuals: &'a [Actual],
    /// Of a function.
    pub slot: Option<u32>,
    pub ghost call: { IsCall flow.now classes.now outside inside site (record { routine = routine; actuals = actuals.now; slot = slot }) },
    pub ghost linked: { links.now ≡ links_at classes.now.outline flow.now.edges (class_in classes.now outside) site },
}

impl<'a> Crossing<'a> {
    ghost use Rattle.transfer_fwd.specs.Crossed.{crossing_of, inside_of, outside_of};

    /// What the call is given stands in the class that calls.
    pub(crate) fn stands(&self)
        ensures routine { self.now.routine < length self.now.flow.now.program.routines }
        ensures actuals { ActualsStand self.now.flow.now.program (seen_in self.now.classes.now self.now.outside) self.now.routine self.now.actuals.now }
    {
        what_is_visible_is_seen();
        self.classes.count();
    }

    /// What names stand for: each variable of the routine that is called, and the slot.
    pub(crate) fn names_seen(&self)
        ensures own { (v : ℕ) (d : VarDef) → slice_get self.now.flow.now.program.vars v ≡ Some d → d.routine ≡ self.now.routine → (seen_in self.now.classes.now self.now.inside).variable v ≡ true }
        ensures result { (v : ℕ) → result_of (tables self.now.flow.now.program) self.now.routine ≡ Some v → (seen_in self.now.classes.now self.now.inside).variable v ≡ true }
        ensures formals { list_all (seen_in self.now.classes.now self.now.inside).variable (formals_of ((tables self.now.flow.now.program).head_at self.now.routine)) ≡ true }
        ensures vars { (d : Routine) → slice_get self.now.flow.now.program.routines self.now.routine ≡ Some d → list_all (seen_in self.now.classes.now self.now.inside).variable d.vars ≡ true }
        ensures in_range { (d : Routine) → slice_get self.now.flow.now.program.routines self.now.routine ≡ Some d → list_all (λ v. nat_lt v (length self.now.flow.now.program.vars)) d.vars ≡ true }
        ensures slot { (v : ℕ) → self.now.slot ≡ Some v → (seen_in self.now.classes.now self.now.outside).variable v ≡ true }
    {
        what_is_visible_is_seen();
        self.classes.count();
    }

    /// How the links join the cells of both classes.
    pub(crate) fn shares(&self)
        ensures { LinksShare self.now.classes.now.outline (class_in self.now.classes.now self.now.outside) (class_in self.now.classes.now self.now.inside) self.now.links.now }
    {
        links_join_the_shared_cells();
        self.classes.count();
    }

    /// The actions of the class that calls.
    pub(crate) fn outside(&self) -> Actions<'a>
        ensures scope { scope_of result.scope ≡ outside_of self.now }
        ensures program { program_of result.scope ≡ self.now.flow.now.program }
        ensures cells { cells_of result.scope ≡ cells_in self.now.classes.now self.now.outside }
        ensures seen { seen_of result.scope ≡ seen_in self.now.classes.now self.now.outside }
    {
        Actions {
            scope: Scope::over(self.flow, self.classes, self.outside),
        }
    }

    /// The scope of the class that is entered.
    pub(crate) fn inside(&self) -> Scope<'a>
        ensures scope { scope_of result ≡ inside_of self.now }
        ensures program { program_of result ≡ self.now.flow.now.program }
        ensures cells { cells_of result ≡ cells_in self.now.classes.now self.now.inside }
        ensures seen { seen_of result ≡ seen_in self.now.classes.now self.now.inside }
    {
        Scope::over(self.flow, self.classes, self.inside)
    }

    /// What the call leaves of its own environment.
    pub(crate) fn leave(&self, env: &mut Env)
        requires { cell_count env.old.env ≡ cells_in self.now.classes.now self.now.outside }
        ensures value { env.new.env ≡ leaving (crossing_of self.now) env.old.env }
        ensures cells { cell_count env.new.env ≡ cell_count env.old.env }
        ensures room { room_of env.new ≡ room_of env.old }
    {
        self.stands();
        self.outside().pass(env, self.routine, self.actuals);
    }
}
