//! The variables that one routine sees.
ghost use Rattle.std.specs.Prelude.{◌≡◌, ◌<◌, ◌++◌, All, IfOk, OnOk, filter, length, map, not};
ghost use Rattle.pas_check.specs.Names.{name_at};
ghost use Rattle.report.specs.Visible as spec;

use crate::spelling::bytes_of;
use pas_program::{Program, Routine, VarKind};
use px_base::Span;
use std::alloc::{AllocError, Global};
use std::collections::HashSet;

/// Those of these variables whose names a routine's block doesn't declare.
pub(crate) fn not_declared(
    alloc: Global,
    text: &[u8],
    program: &Program,
    routine: &Routine,
    around: &[u32],
) -> Result<Vec<u32>, AllocError>
    requires around { All (λ v. v < length program.now.vars) around.now }
    requires own { All (λ v. v < length program.now.vars) routine.now.vars }
    ensures { IfOk result (λ vars. vars.items ≡ filter (λ v. not (spec.is_declared text.now program.now routine.now v)) around.now) }
{
    let declared = declared(alloc, text, program, routine)?;
    let mut vars = Vec::new(alloc);
    for var in around {
        let name = folded(alloc, text, program.var_def(*var).name)?;
        if !declared.contains(&name) {
            vars.push(*var)?;
        }
    }
    Ok(vars)
}

/// Adds the variables of a routine that have names.
pub(crate) fn add_own(
    program: &Program,
    routine: &Routine,
    vars: &mut Vec<u32>,
) -> Result<(), AllocError>
    requires { All (λ v. v < length program.now.vars) routine.now.vars }
    ensures { OnOk result (vars.new.items ≡ vars.old.items ++ spec.own_named program.now routine.now) }
{
    for var in routine.vars.as_slice() {
        if has_name(program.var_def(*var).kind) {
            vars.push(*var)?;
        }
    }
    Ok(())
}

/// The names that a routine's block declares, in lower case.
fn declared(
    alloc: Global,
    text: &[u8],
    program: &Program,
    routine: &Routine,
) -> Result<HashSet<Vec<u8>>, AllocError>
    requires { All (λ v. v < length program.now.vars) routine.now.vars }
    ensures { IfOk result (λ names. spec.HasNames names (spec.declared text.now program.now routine.now)) }
{
    let mut names = HashSet::new(alloc);
    for span in &declarations(alloc, program, routine)? {
        names.insert(folded(alloc, text, *span)?)?;
    }
    Ok(names)
}

/// Where the names that a routine's block declares stand: those of variables, and those of constants, types and routines.
fn declarations(
    alloc: Global,
    program: &Program,
    routine: &Routine,
) -> Result<Vec<Span>, AllocError>
    requires { All (λ v. v < length program.now.vars) routine.now.vars }
    ensures { IfOk result (λ spans. (text : spec.Text) → map (name_at text) spans.items ≡ spec.declared text program.now routine.now) }
{
    let mut own = Vec::new(alloc);
    add_own(program, routine, &mut own)?;
    let mut spans = Vec::with_capacity(alloc, own.len())?;
    for var in &own {
        spans.push(program.var_def(*var).name)?;
    }
    spans.extend_from_slice(routine.names.as_slice())?;
    Ok(spans)
}

/// Slots and the kept bounds of `for` have no names.
fn has_name(kind: VarKind) -> bool
    ensures { result ≡ spec.has_name kind }
{
    !matches!(kind, VarKind::Slot | VarKind::Bound)
}

/// A name in lower case.
fn folded(alloc: Global, text: &[u8], name: Span) -> Result<Vec<u8>, AllocError>
    ensures { IfOk result (λ bytes. bytes.items ≡ name_at text.now name) }
{
    let mut bytes = Vec::from_slice(alloc, bytes_of(text, name))?;
    bytes.make_ascii_lowercase();
    Ok(bytes)
}
