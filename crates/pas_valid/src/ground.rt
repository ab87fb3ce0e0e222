use pas_program::{Assert, Routine, TypeDef, VarDef};
use std::alloc::Global;
use std::collections::HashSet;

/// The parts against which the inside of a routine is tested.
#[derive(Clone, Copy)]
pub struct Ground<'a> {
    pub alloc: Global,
    pub types: &'a [TypeDef],
    pub vars: &'a [VarDef],
    pub routines: &'a [Routine],
    /// The labels of each routine.
    pub labels: &'a [HashSet<u32>],
    pub asserts: &'a [Assert],
    /// The routine at hand.
    pub routine: u32,
    /// Whether a function may be called.
    pub calls: bool,
}
