use pas_program::{Assert, Routine, TypeDef, VarDef};
use std::alloc::Global;
use std::collections::HashSet;

/// The parts of a program whose validity is to be decided.
#[derive(Clone, Copy)]
pub struct Parts<'a> {
    pub alloc: Global,
    pub types: &'a [TypeDef],
    pub vars: &'a [VarDef],
    pub routines: &'a [Routine],
    pub asserts: &'a [Assert],
    /// The labels of each routine.
    pub labels: &'a [HashSet<u32>],
    /// The place of each variable in the list of its routine.
    pub ranks: &'a [u32],
}
