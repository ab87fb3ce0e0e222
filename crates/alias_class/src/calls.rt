//! Calls: the classes that they enter, and the cells that are linked.

ghost use Rattle.std.specs.Prelude.{◌≡◌, ◌<◌, ◌≤◌, IfOk, OnOk, OnErr, Some, length, slice_get};
ghost use Rattle.std.specs.Option.{option_copied};
ghost use Rattle.pas_program.specs.declared.expr.Actual.TheViews.{out-Actual};
ghost use Rattle.control_points.specs.Fits.{act_at};
ghost use Rattle.alias_class.specs.Calls.{IsSite, callee, links_at, named, parent_in, var_actual, var_actuals};
ghost use Rattle.alias_class.specs.Cells.{IsClass, routine_of};
ghost use Rattle.alias_class.specs.Classes.{class_at, same_class};
ghost use Rattle.alias_class.specs.Distinct.{with_member};
ghost use Rattle.alias_class.specs.Outlines.{outline_of};
ghost use Rattle.alias_class.specs.Passings.{AreSeen, IsCallEdge, IsCallFrom, IsCallOf, IsDeclaredAround, IsPassingOf};
ghost use Rattle.alias_class.specs.Tables.{class_of_key, namers_of};

use crate::bind::{Bind, Link};
use crate::classes::{Classes, Row};
use crate::key::Key;
use crate::passing::Passing;
use control_points::{Act, Flow};
use pas_program::{Access, Actual};
use sqlite_items::Items;
use std::alloc::{AllocError, Global};

impl Classes {
    /// The class that the call of the edge `site` enters from `class`. It is added where it is new; for want of memory it is not.
    pub fn enter(&mut self, flow: &Flow, class: u32, site: u32) -> Result<u32, AllocError>
        requires flow { self.old.outline ≡ outline_of flow.now }
        requires class { class < length self.old.classes }
        requires site { IsSite flow.now.points flow.now.edges (routine_of self.old.outline (class_at self.old.classes class)) site }
        requires room { length self.old.classes < 4294967295 }
        ensures entered { IfOk result (λ n. slice_get self.new.classes n ≡ Some (callee self.old.outline flow.now.edges (class_at self.old.classes class) site)) }
        ensures added { OnOk result (self.new ≡ record self.old { classes = with_member same_class self.old.classes (callee self.old.outline flow.now.edges (class_at self.old.classes class) site) }) }
        ensures refused { OnErr result (self.new ≡ self.old) }
    {
        let alloc = *self.rows.allocator();
        let (routine, actuals) = call_at(flow, site);
        let parent = self.callee_parent(class, routine);
        let passing = self.passing(alloc, class, routine, actuals)?;
        let (bindings, namers) = passing.into_parts();
        let key = Key {
            parent,
            routine,
            site,
            bindings,
        };
        self.add(key, namers)
    }

    /// The cells of a class that the callee at the edge `site` has, too, in rising order. Its others are hidden from the callee.
    pub fn links(
        &self,
        alloc: Global,
        flow: &Flow,
        class: u32,
        site: u32,
    ) -> Result<Vec<Link>, AllocError>
        requires flow { self.now.outline ≡ outline_of flow.now }
        requires class { class < length self.now.classes }
        requires site { IsSite flow.now.points flow.now.edges (routine_of self.now.outline (class_at self.now.classes class)) site }
        ensures { IfOk result (λ links. links.items ≡ links_at self.now.outline flow.now.edges (class_at self.now.classes class) site) }
    {
        // each class of a table is one, so that what stands in its routine calls from it
        let _ = self.routine(class);
        let (routine, actuals) = call_at(flow, site);
        self.passing(alloc, class, routine, actuals)?.links(alloc)
    }

    /// What a call of a routine passes.
    fn passing(
        &self,
        alloc: Global,
        class: u32,
        routine: u32,
        actuals: &[Actual],
    ) -> Result<Passing, AllocError>
        requires class { class < length self.now.classes }
        requires call { IsCallFrom self.now.outline (class_at self.now.classes class) routine actuals.now }
        ensures passed { IfOk result (λ p. IsPassingOf self.now.outline (class_at self.now.classes class) routine actuals.now p) }
    {
        let parent = self.callee_parent(class, routine);
        let inherited = self.cells(parent);
        let first_foreign = inherited + self.outline.own(routine).len() as u32;
        let named = self.named_by(alloc, class, actuals)?;
        let formals = self.outline.formals(routine);
        Passing::new(alloc, inherited, first_foreign, formals, &named)
    }

    /// The class of the static parent of a routine that is called.
    fn callee_parent(&self, class: u32, routine: u32) -> u32
        requires class { class < length self.now.classes }
        requires declared { IsDeclaredAround self.now.outline (class_at self.now.classes class) routine }
        ensures value { slice_get self.now.classes result ≡ Some (parent_in self.now.outline (class_at self.now.classes class) routine) }
        ensures before { result ≤ class }
    {
        self.around(class, self.outline.parent(routine).unwrap())
    }

    /// What the actuals of variable parameters stand for.
    fn named_by(
        &self,
        alloc: Global,
        class: u32,
        actuals: &[Actual],
    ) -> Result<Vec<Bind>, AllocError>
        requires class { class < length self.now.classes }
        requires seen { AreSeen self.now.outline (class_at self.now.classes class) (var_actuals actuals.now) }
        ensures { IfOk result (λ names. names.items ≡ named self.now.outline (class_at self.now.classes class) actuals.now) }
    {
        let mut named = Vec::new(alloc);
        for actual in actuals {
            if let Some(access) = passed_variable(actual) {
                named.push(self.resolve_access(class, access))?;
            }
        }
        Ok(named)
    }

    /// The class of a key, which is added where it is new.
    fn add(&mut self, key: Key, namers: Items<u32>) -> Result<u32, AllocError>
        requires parent { key.parent < length self.old.classes }
        requires class { IsClass self.old.outline (class_of_key self.old.classes key) }
        requires namers { namers ≡ namers_of self.old.outline (class_of_key self.old.classes key) }
        requires room { length self.old.classes < 4294967295 }
        ensures entered { IfOk result (λ n. slice_get self.new.classes n ≡ Some (class_of_key self.old.classes key)) }
        ensures added { OnOk result (self.new ≡ record self.old { classes = with_member same_class self.old.classes (class_of_key self.old.classes key) }) }
        ensures refused { OnErr result (self.new ≡ self.old) }
    {
        self.rows.reserve(1)?;
        let routine = key.routine;
        let inherited = self.rows[key.parent as usize].cells;
        let own = self.outline.own(routine).len();
        let cells = inherited + (own + namers.len()) as u32;
        let (at, is_new) = self.keys.insert_full(key)?;
        if is_new {
            self.rows
                .push(Row {
                    routine,
                    inherited,
                    cells,
                    namers,
                })
                .unwrap();
        }
        Ok(at as u32 + 1)
    }
}

/// The actual of a variable parameter.
fn passed_variable(actual: &Actual) -> Option<&Access>
    ensures { option_copied result ≡ var_actual (out-Actual actual.now) }
{
    match actual {
        Actual::Var(access) => Some(access),
        Actual::Value(_) | Actual::Whole(_) => None,
    }
}

/// The routine that a call enters, and its actuals.
fn call_at(flow: &Flow, site: u32) -> (u32, &[Actual])
    requires { IsCallEdge flow.now.edges site }
    ensures { IsCallOf (act_at flow.now.edges site) result.0 result.1.now }
{
    match &flow.edges()[site as usize].act {
        Act::Call {
            routine,
            actuals,
            ..
        } => (*routine, actuals.as_slice()),
        _ => unreachable!(),
    }
}
