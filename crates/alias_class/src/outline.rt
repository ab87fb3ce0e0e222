//! What the classes of a program need to know of its variables and routines.

ghost use Rattle.std.specs.Prelude.{◌≡◌, ℕ, ◌<◌, All, IfOk, Some, false, length, map, nat_eq, slice_get, slice_index, true};
ghost use Rattle.std.specs.List.{position_or_len};
ghost use Rattle.pas_program.specs.declared.variable.VarDef.{VarDef};
ghost use Rattle.pas_program.specs.Scopes.{contains};
ghost use Rattle.alias_class.specs.Outlines.{is_var_formal, own_variables, routine_outline, var_formals, variable_outlines};
ghost use Rattle.alias_class.specs.Ranks.{AreRanks, IsListed, ranked_outline};

use interval::Itv;
use pas_program::{Program, Routine, VarKind};
use sqlite_items::Items;
use std::alloc::{AllocError, Global};

/// What the name of a variable stands for in a class of its routine.
#[derive(Clone, Copy, Debug, PartialEq, Eq)]
pub(crate) enum Referent {
    /// The cell of this rank among those that the class has of its own.
    Own(u32),
    /// What the variable parameter of this rank is bound to.
    Bound(u32),
}

#[derive(Clone, Copy, Debug, PartialEq, Eq)]
pub(crate) struct VariableOutline {
    pub routine: u32,
    pub referent: Referent,
    /// The numbers that a scalar of its type may be.
    pub range: Itv,
}

#[derive(Debug, Drop)]
pub(crate) struct RoutineOutline {
    /// The routine in whose block it is declared.
    pub parent: Option<u32>,
    /// Its variables that have cells of their own, in the order of these.
    pub own: Items<u32>,
    /// Its variable parameters, in order.
    pub formals: Items<u32>,
}

#[derive(Debug, Drop)]
pub(crate) struct Outline {
    /// The routine that is the program's block.
    pub main: u32,
    pub routines: Items<RoutineOutline>,
    pub variables: Items<VariableOutline>,
}

impl Outline {
    ghost use Rattle.alias_class.specs.Outlines.{outline_of_program, own_of, formals_of, parent_of};

    pub fn of_program(alloc: Global, program: &Program) -> Result<Outline, AllocError>
        ensures { IfOk result (λ o. o ≡ outline_of_program program.now) }
    {
        let routines = routine_outlines(alloc, program)?;
        let variables = variable_outlines(alloc, program, routines.as_slice())?;
        Ok(Outline {
            main: (program.routines.len() - 1) as u32,
            routines,
            variables,
        })
    }

    /// What the variable is.
    pub fn variable(&self, var: u32) -> VariableOutline
        requires { var < length self.now.variables }
        ensures { slice_get self.now.variables var ≡ Some result }
    {
        self.variables.as_slice()[var as usize]
    }

    /// The variables of the routine that have cells of their own.
    pub fn own(&self, routine: u32) -> &[u32]
        requires { routine < length self.now.routines }
        ensures { result.now ≡ own_of self.now routine }
    {
        self.routines.as_slice()[routine as usize].own.as_slice()
    }

    /// The variable parameters of the routine.
    pub fn formals(&self, routine: u32) -> &[u32]
        requires { routine < length self.now.routines }
        ensures { result.now ≡ formals_of self.now routine }
    {
        self.routines.as_slice()[routine as usize]
            .formals
            .as_slice()
    }

    /// The routine in whose block the routine is declared.
    pub fn parent(&self, routine: u32) -> Option<u32>
        requires { routine < length self.now.routines }
        ensures { result ≡ parent_of self.now routine }
    {
        self.routines.as_slice()[routine as usize].parent
    }
}

// ---- of a program

fn routine_outlines(alloc: Global, program: &Program) -> Result<Items<RoutineOutline>, AllocError>
    ensures { IfOk result (λ routines. routines ≡ map (routine_outline program.now.vars) program.now.routines) }
{
    let mut routines = Items::new(alloc);
    for routine in program.routines.as_slice() {
        routines.push(RoutineOutline {
            parent: routine.parent,
            own: own_variables(alloc, program, routine)?,
            formals: var_formals(alloc, program, routine)?,
        })?;
    }
    Ok(routines)
}

fn own_variables(
    alloc: Global,
    program: &Program,
    routine: &Routine,
) -> Result<Items<u32>, AllocError>
    requires { All (λ v. v < length program.now.vars) routine.now.vars }
    ensures { IfOk result (λ own. own ≡ own_variables program.now.vars routine.now) }
{
    let mut own = Items::new(alloc);
    for &var in routine.vars.as_slice() {
        if !is_var_formal(program, var) {
            own.push(var)?;
        }
    }
    Ok(own)
}

fn var_formals(
    alloc: Global,
    program: &Program,
    routine: &Routine,
) -> Result<Items<u32>, AllocError>
    requires { All (λ v. v < length program.now.vars) routine.now.formals }
    ensures { IfOk result (λ formals. formals ≡ var_formals program.now.vars routine.now) }
{
    let mut formals = Items::new(alloc);
    for &var in routine.formals.as_slice() {
        if is_var_formal(program, var) {
            formals.push(var)?;
        }
    }
    Ok(formals)
}

fn is_var_formal(program: &Program, var: u32) -> bool
    requires { var < length program.now.vars }
    ensures { result ≡ is_var_formal program.now.vars var }
{
    matches!(program.var_def(var).kind, VarKind::Var)
}

fn variable_outlines(
    alloc: Global,
    program: &Program,
    routines: &[RoutineOutline],
) -> Result<Items<VariableOutline>, AllocError>
    requires { routines.now ≡ map (routine_outline program.now.vars) program.now.routines }
    ensures { IfOk result (λ variables. variables ≡ variable_outlines program.now.types routines.now program.now.vars) }
{
    let ranks = ranks_of(alloc, program, routines)?;
    let mut variables = Items::new(alloc);
    for var in 0..program.vars.len() as u32 {
        variables.push(variable_outline(program, var, ranks[var as usize]))?;
    }
    Ok(variables)
}

/// The outline of a variable with its place in the list of its routine in which it stands.
fn variable_outline(program: &Program, var: u32, rank: u32) -> VariableOutline
    requires { var < length program.now.vars }
    ensures { (d : VarDef) → slice_get program.now.vars var ≡ Some d → result ≡ ranked_outline program.now.types rank d }
{
    let def = program.var_def(var);
    let (lo, hi) = program.type_range(def.of_type);
    VariableOutline {
        routine: def.routine,
        referent: match def.kind {
            VarKind::Var => Referent::Bound(rank),
            _ => Referent::Own(rank),
        },
        range: Itv::between(i64::from(lo), i64::from(hi)),
    }
}

/// The place of each variable in the list of its routine in which it stands.
fn ranks_of(
    alloc: Global,
    program: &Program,
    routines: &[RoutineOutline],
) -> Result<Vec<u32>, AllocError>
    requires { routines.now ≡ map (routine_outline program.now.vars) program.now.routines }
    ensures { IfOk result (λ ranks. AreRanks program.now.vars routines.now (length routines.now) ranks.items) }
{
    let mut ranks = vec![in alloc; 0; program.vars.len()]?;
    rank_all(&mut ranks, program, routines);
    Ok(ranks)
}

/// Puts the place of each variable of all lists.
fn rank_all(ranks: &mut [u32], program: &Program, routines: &[RoutineOutline])
    requires long { length ranks.old ≡ length program.now.vars }
    requires routines { routines.now ≡ map (routine_outline program.now.vars) program.now.routines }
    ensures { AreRanks program.now.vars routines.now (length routines.now) ranks.new }
{
    for routine in routines {
        put_ranks(ranks, routine.own.as_slice());
        put_ranks(ranks, routine.formals.as_slice());
    }
}

/// Puts the place of each variable of a list.
fn put_ranks(ranks: &mut [u32], vars: &[u32])
    requires { IsListed (length ranks.old) vars.now }
    ensures placed { (v : ℕ) → contains v vars.now ≡ true → slice_index ranks.new v ≡ position_or_len (λ w. nat_eq v w) vars.now }
    ensures others { (v : ℕ) → contains v vars.now ≡ false → slice_index ranks.new v ≡ slice_index ranks.old v }
{
    for (rank, &var) in vars.iter().enumerate() {
        ranks[var as usize] = rank as u32;
    }
}
