//! What is asked of each routine.

ghost use Rattle.std.specs.Prelude.{◌≡◌, ◌+◌, ◌<◌, ◌≤◌, ℕ, OnOk, OnSome, Some, length, nat_eq, nat_lt, slice_get, suc, true};
ghost use Rattle.std.specs.Bool.{OnTrue};
ghost use Rattle.std.specs.Option.{option_map};
ghost use Rattle.pas_program.specs.Each.{true_if_some};
ghost use Rattle.pas_program.specs.Order as order;
ghost use Rattle.pas_program.specs.Scopes as scopes;
ghost use Rattle.pas_program.specs.Size.{statement_size};
ghost use Rattle.pas_program.specs.Tables.{holds_of, tables_of};
ghost use Rattle.pas_program.specs.Valid as valid;
ghost use Rattle.pas_program.specs.Valid.{counts_of};
ghost use Rattle.pas_valid.specs.Whole as whole;

use crate::ground::Ground;
use crate::parts::Parts;
use crate::refusal::Refusal;
use crate::scope::is_kind;
use crate::statement::all_below;
use pas_program::{Body, Routine, Statement, TypeDef, VarDef, VarKind};
use sqlite_items::at;

fn below_if_some(number: Option<u32>, limit: usize) -> bool
    ensures { result ≡ true_if_some (option_map (λ n. nat_lt n limit) number) }
{
    match number {
        Some(number) => (number as usize) < limit,
        None => true,
    }
}

fn is_the(v: u32, o: Option<u32>) -> bool
    ensures { result ≡ scopes.is_the v o }
{
    match o {
        Some(w) => v == w,
        None => false,
    }
}

fn is_formal(kind: VarKind) -> bool
    ensures { result ≡ scopes.is_formal kind }
{
    matches!(kind, VarKind::Value | VarKind::Var)
}

/// Where the variables of a kind stand in the list of a routine.
fn rank(kind: VarKind) -> u8
    ensures { result ≡ order.rank kind }
{
    match kind {
        VarKind::Value | VarKind::Var => 0,
        VarKind::Local => 1,
        VarKind::Result => 2,
        VarKind::Slot => 3,
        VarKind::Bound => 4,
    }
}

fn precedes(first: &VarDef, next: &VarDef) -> bool
    ensures { result ≡ order.precedes first.now next.now }
{
    let (before, after) = (rank(first.kind), rank(next.kind));
    before < after || before == after && first.place < next.place
}

fn is_outermost(body: &Statement) -> bool
    ensures { result ≡ scopes.is_outermost body.now }
{
    let begins = matches!(&body.body, Body::Begin { .. });
    begins && body.label.is_none() && body.asserts.as_slice().len() == 0
}

/// Whether the parameters come first among the variables.
fn formals_first(formals: &[u32], vars: &[u32]) -> Option<()>
    ensures { OnSome result ((k v : ℕ) → slice_get formals.now k ≡ Some v → holds_of (λ w. nat_eq w v) (slice_get vars.now k) ≡ true) }
{
    for (k, v) in formals.iter().enumerate() {
        if *at(vars, k)? != *v {
            return None;
        }
    }
    Some(())
}

impl<'a> Parts<'a> {
    /// Whether routine `r` fits. `left` falls at least by the number of the parts of its body.
    pub fn routine(&self, r: u32, d: &Routine, left: &mut u32) -> Result<(), Refusal>
        requires { r < length self.now.routines.now }
        ensures fits { OnOk result (whole.RoutineFits self.now.types.now self.now.vars.now self.now.routines.now self.now.asserts.now self.now.labels.now self.now.ranks.now r d.now) }
        ensures size { OnOk result (statement_size d.now.body + left.new ≤ left.old) }
    {
        let ground = Ground {
            alloc: self.alloc,
            types: self.types,
            vars: self.vars,
            routines: self.routines,
            labels: self.labels,
            asserts: self.asserts,
            routine: r,
            calls: true,
        };
        let heads = self.in_range(d) && self.result_fits(d.result) && self.parent_fits(r, d);
        if !(heads && is_outermost(&d.body)) || self.lists(r, d).is_none() {
            return Err(Refusal::Invalid);
        }
        ground.statement(&d.body, left)
    }

    fn in_range(&self, d: &Routine) -> bool
        ensures { OnTrue result (valid.routine_in_range (counts_of self.now.types.now self.now.vars.now self.now.routines.now self.now.asserts.now) d.now ≡ true) }
    {
        let heads = below_if_some(d.parent, self.routines.len())
            && below_if_some(d.result, self.vars.len());
        heads
            && all_below(d.formals.as_slice(), self.vars.len())
            && all_below(d.vars.as_slice(), self.vars.len())
    }

    /// A result is a scalar.
    fn result_fits(&self, r: Option<u32>) -> bool
        ensures { OnTrue result (valid.result_fits (tables_of self.now.types.now self.now.vars.now self.now.routines.now) r ≡ true) }
    {
        let Some(v) = r else {
            return true;
        };
        let Some(var) = at(self.vars, v as usize) else {
            return false;
        };
        matches!(
            at(self.types, var.of_type as usize),
            Some(TypeDef::Scalar { .. })
        )
    }

    fn parent_fits(&self, r: u32, d: &Routine) -> bool
        requires { r < length self.now.routines.now }
        ensures { OnTrue result (scopes.parent_fits self.now.routines.now r d.now d.now.parent ≡ true) }
    {
        match d.parent {
            None => {
                let last = r as usize + 1 == self.routines.len() && d.level == 0;
                last && d.formals.as_slice().len() == 0 && d.result.is_none()
            }
            Some(p) => match at(self.routines, p as usize) {
                Some(around) => r < p && around.level.checked_add(1) == Some(d.level),
                None => false,
            },
        }
    }

    /// Whether the lists of routine `r` have each its variables, by their ranks.
    fn lists(&self, r: u32, d: &Routine) -> Option<()>
        ensures { OnSome result (whole.Listed self.now.vars.now self.now.ranks.now r d.now) }
    {
        self.entries(r, d, d.vars.as_slice())?;
        self.neighbours(d.vars.as_slice())?;
        formals_first(d.formals.as_slice(), d.vars.as_slice())?;
        if !self.result_own(r, d.result) {
            return None;
        }
        Some(())
    }

    /// Whether each variable of a list stands there rightly as one of routine `r`.
    fn entries(&self, r: u32, d: &Routine, list: &[u32]) -> Option<()>
        ensures { OnSome result ((k v : ℕ) → slice_get list.now k ≡ Some v → whole.entry_fits self.now.vars.now self.now.ranks.now r d.now k v ≡ true) }
    {
        for (k, v) in list.iter().enumerate() {
            self.entry(r, d, k, *v)?;
        }
        Some(())
    }

    /// Whether each variable of a list precedes the next.
    fn neighbours(&self, list: &[u32]) -> Option<()>
        ensures { OnSome result ((k v w : ℕ) → slice_get list.now k ≡ Some v → slice_get list.now (suc k) ≡ Some w → whole.stand_in_order self.now.vars.now v w ≡ true) }
    {
        for (k, v) in list.iter().enumerate() {
            if let Some(w) = at(list, k + 1) {
                if !self.stand_in_order(*v, *w) {
                    return None;
                }
            }
        }
        Some(())
    }

    fn stand_in_order(&self, v: u32, w: u32) -> bool
        ensures { result ≡ whole.stand_in_order self.now.vars.now v w }
    {
        match at(self.vars, v as usize) {
            Some(first) => match at(self.vars, w as usize) {
                Some(next) => precedes(first, next),
                None => false,
            },
            None => false,
        }
    }

    fn result_own(&self, r: u32, o: Option<u32>) -> bool
        ensures { OnTrue result ((v : ℕ) → o ≡ Some v → holds_of (λ (x : VarDef). nat_eq x.routine r) (slice_get self.now.vars.now v) ≡ true) }
    {
        match o {
            Some(v) => match at(self.vars, v as usize) {
                Some(var) => var.routine == r,
                None => false,
            },
            None => true,
        }
    }

    fn entry(&self, r: u32, d: &Routine, k: usize, v: u32) -> Option<()>
        ensures { OnSome result (whole.entry_fits self.now.vars.now self.now.ranks.now r d.now k v ≡ true) }
    {
        let var = at(self.vars, v as usize)?;
        let rank = *at(self.ranks, v as usize)?;
        let formal = (k < d.formals.as_slice().len()) == is_formal(var.kind);
        let returned = is_the(v, d.result) == is_kind(VarKind::Result, var.kind);
        if var.routine == r && formal && returned && rank as usize == k {
            Some(())
        } else {
            None
        }
    }
}
