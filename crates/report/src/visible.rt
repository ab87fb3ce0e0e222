//! Which variables a report names at the points of a routine.
ghost use Rattle.std.specs.Prelude.{◌≡◌, ◌<◌, IfOk, length, map};
ghost use Rattle.std.specs.List.{range_with_len};
ghost use Rattle.activations.specs.Parts.{lists_of};
ghost use Rattle.report.specs.Visible as spec;
ghost use Rattle.report.specs.Visible.{AreKnown};

use pas_program::Program;
use seen::{add_own, not_declared};
use std::alloc::{AllocError, Global};

mod seen;

/// For each routine the variables that it sees by their names, those of the routines around it first, outermost first.
pub(crate) fn visible(
    alloc: Global,
    text: &[u8],
    program: &Program,
) -> Result<Vec<Vec<u32>>, AllocError>
    ensures { IfOk result (λ lists. lists_of lists.items ≡ map (spec.visible text.now program.now) (range_with_len 0 (length program.now.routines))) }
{
    let count = program.routines.as_slice().len();
    let mut lists = Vec::with_capacity(alloc, count)?;
    for _ in 0..count {
        lists.push(Vec::new(alloc))?;
    }
    // A routine around another one comes after it.
    for r in (0..count).rev() {
        lists[r] = seen_by(alloc, text, program, r, &lists)?;
    }
    Ok(lists)
}

/// The variables that a routine sees, where those that each routine of a greater number sees are known.
fn seen_by(
    alloc: Global,
    text: &[u8],
    program: &Program,
    r: usize,
    lists: &[Vec<u32>],
) -> Result<Vec<u32>, AllocError>
    requires routine { r < length program.now.routines }
    requires known { AreKnown text.now program.now r lists.now }
    ensures { IfOk result (λ vars. vars.items ≡ spec.visible text.now program.now r) }
{
    let routine = &program.routines.as_slice()[r];
    match routine.parent {
        Some(parent) => {
            let mut vars = not_declared(alloc, text, program, routine, &lists[parent as usize])?;
            add_own(program, routine, &mut vars)?;
            Ok(vars)
        }
        None => {
            let mut vars = Vec::new(alloc);
            add_own(program, routine, &mut vars)?;
            Ok(vars)
        }
    }
}
