//! Whether parts make a valid program.

ghost use Rattle.std.specs.Prelude.{◌≡◌, ◌+◌, ◌<◌, ◌≤◌, ℕ, IfOk, IfSome, OnOk, OnSome, Some, length, map, slice_get, true};
ghost use Rattle.std.specs.List.{sum};
ghost use Rattle.pas_program.specs.Labels.{count_asserted};
ghost use Rattle.pas_program.specs.Size.{expr_size, statement_size};
ghost use Rattle.pas_program.specs.Valid.{IsValid, counts_of, var_in_range};
ghost use Rattle.pas_valid.specs.Standing.{LabelsAre};
ghost use Rattle.pas_valid.specs.Whole as whole;

use crate::ground::Ground;
use crate::parts::Parts;
use crate::refusal::Refusal;
use crate::standing::{no_marks, standing_with};
use crate::type_list::TypeList;
use pas_program::{Assert, Program, Routine, TypeDef, VarDef};
use sqlite_items::{Items, at};
use std::alloc::{AllocError, Global};
use std::collections::HashSet;

/// The most parts, variables and types that a program may have.
const MOST_PARTS: u32 = 8_388_608;

impl<'a> Parts<'a> {
    fn vars(&self) -> Option<()>
        ensures range { OnSome result ((v : ℕ) (x : VarDef) → slice_get self.now.vars.now v ≡ Some x → var_in_range (counts_of self.now.types.now self.now.vars.now self.now.routines.now self.now.asserts.now) x ≡ true) }
        ensures ranks { OnSome result ((v : ℕ) (x : VarDef) → slice_get self.now.vars.now v ≡ Some x → whole.rank_fits self.now.routines.now self.now.ranks.now v x ≡ true) }
    {
        for (v, var) in self.vars.iter().enumerate() {
            self.var(v, var)?;
        }
        Some(())
    }

    fn var(&self, v: usize, var: &VarDef) -> Option<()>
        ensures range { OnSome result (var_in_range (counts_of self.now.types.now self.now.vars.now self.now.routines.now self.now.asserts.now) var.now ≡ true) }
        ensures ranks { OnSome result (whole.rank_fits self.now.routines.now self.now.ranks.now v var.now ≡ true) }
    {
        if var.of_type as usize >= self.types.len() {
            return None;
        }
        let routine = at(self.routines, var.routine as usize)?;
        let rank = *at(self.ranks, v)?;
        if *at(routine.vars.as_slice(), rank as usize)? as usize == v {
            Some(())
        } else {
            None
        }
    }

    fn routines(&self, left: &mut u32) -> Result<(), Refusal>
        ensures fit { OnOk result ((r : ℕ) (d : Routine) → slice_get self.now.routines.now r ≡ Some d → whole.RoutineFits self.now.types.now self.now.vars.now self.now.routines.now self.now.asserts.now self.now.labels.now self.now.ranks.now r d) }
        ensures size { OnOk result (sum (map (λ (d : Routine). statement_size d.body) self.now.routines.now) + left.new ≤ left.old) }
    {
        for (r, d) in self.routines.iter().enumerate() {
            if r > MOST_PARTS as usize {
                return Err(Refusal::Invalid);
            }
            self.routine(r as u32, d, left)?;
        }
        Ok(())
    }

    fn asserts(&self, left: &mut u32) -> Option<()>
        ensures fit { OnSome result ((a : ℕ) (d : Assert) → slice_get self.now.asserts.now a ≡ Some d → whole.AssertFits self.now.types.now self.now.vars.now self.now.routines.now self.now.asserts.now self.now.labels.now d) }
        ensures size { OnSome result (sum (map (λ (d : Assert). expr_size d.cond) self.now.asserts.now) + left.new ≤ left.old) }
    {
        for d in self.asserts {
            self.assert(d, left)?;
        }
        Some(())
    }

    fn assert(&self, d: &Assert, left: &mut u32) -> Option<()>
        ensures fits { OnSome result (whole.AssertFits self.now.types.now self.now.vars.now self.now.routines.now self.now.asserts.now self.now.labels.now d.now) }
        ensures size { OnSome result (expr_size d.now.cond + left.new ≤ left.old) }
    {
        if d.routine as usize >= self.routines.len() {
            return None;
        }
        let ground = Ground {
            alloc: self.alloc,
            types: self.types,
            vars: self.vars,
            routines: self.routines,
            labels: self.labels,
            asserts: self.asserts,
            routine: d.routine,
            calls: false,
        };
        ground.of_host(&d.cond, true, left)?;
        Some(())
    }

    /// Whether the parts are valid, apart from the list of types.
    fn valid(&self) -> Result<(), Refusal>
        ensures { OnOk result (whole.AllFit self.now.types.now self.now.vars.now self.now.routines.now self.now.asserts.now self.now.labels.now self.now.ranks.now) }
    {
        let most = MOST_PARTS as usize;
        if self.types.len() > most || self.vars.len() > most || self.routines.len() == 0 {
            return Err(Refusal::Invalid);
        }
        let mut left = MOST_PARTS;
        if self.vars().is_none() {
            return Err(Refusal::Invalid);
        }
        self.routines(&mut left)?;
        match self.asserts(&mut left) {
            Some(()) => Ok(()),
            None => Err(Refusal::Invalid),
        }
    }
}

/// The place of each variable in the list of its routine.
fn ranks(alloc: Global, vars: usize, routines: &[Routine]) -> Result<Vec<u32>, AllocError> {
    let mut ranks = Vec::new(alloc);
    for _ in 0..vars {
        ranks.push(0)?;
    }
    for routine in routines {
        rank(ranks.as_mut_slice(), routine.vars.as_slice());
    }
    Ok(ranks)
}

fn rank(ranks: &mut [u32], vars: &[u32]) {
    let mut place = 0u32;
    for v in vars {
        if let Some(rank) = ranks.get_mut(*v as usize) {
            *rank = place;
        }
        place = place.saturating_add(1);
    }
}

/// The labels of each routine, where no routine has one twice and each assertion stands once, in its routine.
fn standing(
    alloc: Global,
    routines: &[Routine],
    asserts: &[Assert],
) -> Result<Vec<HashSet<u32>>, Refusal>
    ensures labels { IfOk result (λ sets. LabelsAre routines.now sets.items) }
    ensures once { OnOk result ((a : ℕ) → a < length asserts.now → sum (map (λ (d : Routine). count_asserted a d.body) routines.now) ≡ 1) }
    ensures own { OnOk result ((a : ℕ) (d : Assert) (e : Routine) → slice_get asserts.now a ≡ Some d → slice_get routines.now d.routine ≡ Some e → count_asserted a e.body ≡ 1) }
{
    let mut marks = no_marks(alloc, asserts.len())?;
    standing_with(alloc, routines, asserts, marks.as_mut_slice())
}

/// The program of these parts where they are valid, and else none.
pub fn program_of(
    alloc: Global,
    types: TypeList,
    vars: Items<VarDef>,
    routines: Items<Routine>,
    asserts: Items<Assert>,
) -> Result<Option<Program>, AllocError>
    ensures types { IfOk result (λ o. IfSome o (λ p. p.types ≡ types.list)) }
    ensures vars { IfOk result (λ o. IfSome o (λ p. p.vars ≡ vars)) }
    ensures routines { IfOk result (λ o. IfSome o (λ p. p.routines ≡ routines)) }
    ensures asserts { IfOk result (λ o. IfSome o (λ p. p.asserts ≡ asserts)) }
{
    let ranks = ranks(alloc, vars.len(), routines.as_slice())?;
    match valid_with(
        alloc,
        types.list.as_slice(),
        vars.as_slice(),
        routines.as_slice(),
        asserts.as_slice(),
        ranks.as_slice(),
    ) {
        Ok(()) => {
            let TypeList { list } = types;
            Ok(Some(Program::new(list, vars, routines, asserts)))
        }
        Err(Refusal::Invalid) => Ok(None),
        Err(Refusal::Memory(error)) => Err(error),
    }
}

/// Whether the parts are valid, with these places of the variables in the lists of their routines.
fn valid_with(
    alloc: Global,
    types: &[TypeDef],
    vars: &[VarDef],
    routines: &[Routine],
    asserts: &[Assert],
    ranks: &[u32],
) -> Result<(), Refusal>
    ensures { OnOk result (IsValid types.now vars.now routines.now asserts.now) }
{
    let sets = standing(alloc, routines, asserts)?;
    let parts = Parts {
        alloc,
        types,
        vars,
        routines,
        asserts,
        labels: sets.as_slice(),
        ranks,
    };
    parts.valid()
}
