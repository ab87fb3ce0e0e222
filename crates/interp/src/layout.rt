//! Where variables lie in the storage of their activation.
ghost use Rattle.std.specs.Prelude.{◌≡◌, ◌<◌, ◌≤◌, length, slice_get, IfOk, Some, true};
ghost use Rattle.pas_program.specs.declared.variable.VarDef.{VarDef};
ghost use Rattle.pas_program.specs.Types.{count_values, is_scalar};
ghost use Rattle.interp.specs.Layouts.{AreCounts, IsLayout, scalars_of, links_of, count_of, extent_before, extent_of};

use crate::frame::Extent;
use crate::machine::Machine;
use pas_program::{Program, TypeDef, VarDef, VarKind};
use std::alloc::{AllocError, Global};

/// The tables of a program's storage, each by the numbers of its kind.
#[derive(Debug, Drop)]
pub(crate) struct Layout {
    /// How many scalars a value of a type has.
    pub counts: Vec<usize>,
    /// Where a variable lies: a variable parameter among the links of its activation, any other among the scalars.
    pub offsets: Vec<Extent>,
    /// How much storage an activation of a routine has.
    pub extents: Vec<Extent>,
}

impl Layout {
    pub fn new(alloc: Global, program: &Program) -> Result<Layout, AllocError>
        ensures { IfOk result (IsLayout program.now) }
    {
        let counts = counts_of(alloc, program)?;
        let nothing = Extent {
            scalars: 0,
            links: 0,
        };
        let mut extents = vec![in alloc; nothing; program.routines.len()]?;
        let mut offsets = Vec::new(alloc);
        for number in 0..program.vars.len() as u32 {
            let var = program.var_def(number);
            let offset = extents[var.routine as usize];
            offsets.push(offset)?;
            let need = need_of(program, &counts, &var);
            extents[var.routine as usize] = Extent {
                scalars: offset.scalars + need.scalars,
                links: offset.links + need.links,
            };
        }
        Ok(Layout {
            counts,
            offsets,
            extents,
        })
    }
}

/// The tables, read.
impl Machine<'_> {
    /// How many scalars a value of a type has.
    pub(crate) fn count_of(&self, of_type: u32) -> usize
        requires { of_type < length self.now.flow.now.program.types }
        ensures { result ≡ count_of self.now.flow.now.program of_type }
    {
        self.layout.counts[of_type as usize]
    }

    /// The storage before a variable in its activation.
    pub(crate) fn offset_of(&self, var: u32) -> Extent
        requires { var < length self.now.flow.now.program.vars }
        ensures { (d : VarDef) → slice_get self.now.flow.now.program.vars var ≡ Some d → result ≡ extent_before self.now.flow.now.program d.routine var }
    {
        self.layout.offsets[var as usize]
    }

    /// The storage of an activation of a routine.
    pub(crate) fn extent_of(&self, routine: usize) -> Extent
        requires { routine < length self.now.flow.now.program.routines }
        ensures { result ≡ extent_of self.now.flow.now.program routine }
    {
        self.layout.extents[routine]
    }
}

/// How many scalars a value of each type has. An array's index and element types stand before it.
fn counts_of(alloc: Global, program: &Program) -> Result<Vec<usize>, AllocError>
    ensures { IfOk result (λ counts. AreCounts program.now.types counts.items (length program.now.types)) }
{
    let mut counts = Vec::new(alloc);
    for number in 0..program.types.len() as u32 {
        let count = next_count(program, &counts, number);
        counts.push(count)?;
    }
    Ok(counts)
}

/// How many scalars a value of a type has, from those of the types before it.
fn next_count(program: &Program, counts: &[usize], number: u32) -> usize
    requires in_range { number < length program.now.types }
    requires counts { AreCounts program.now.types counts.now number }
    ensures { result ≡ count_of program.now number }
{
    match program.type_def(number) {
        TypeDef::Scalar { .. } => 1,
        TypeDef::Array { index, element } => values_of(program, index) * counts[element as usize],
    }
}

/// How many values a scalar type has.
fn values_of(program: &Program, scalar: u32) -> usize
    requires in_range { scalar < length program.now.types }
    requires scalar { is_scalar (slice_get program.now.types scalar) ≡ true }
    ensures { result ≡ count_values (slice_get program.now.types scalar) }
{
    match program.type_def(scalar) {
        TypeDef::Scalar { lo, hi, .. } => hi.abs_diff(lo) as usize + 1,
        TypeDef::Array { .. } => unreachable!(),
    }
}

/// The storage that a variable needs in its activation.
fn need_of(program: &Program, counts: &[usize], var: &VarDef) -> Extent
    requires counts { AreCounts program.now.types counts.now (length program.now.types) }
    requires type_in_range { var.now.of_type < length program.now.types }
    ensures scalars { result.scalars ≡ scalars_of program.now.types var.now }
    ensures links { result.links ≡ links_of var.now }
{
    match var.kind {
        VarKind::Var => Extent {
            scalars: 0,
            links: 1,
        },
        _ => Extent {
            scalars: counts[var.of_type as usize],
            links: 0,
        },
    }
}
