//! What a routine sees.

ghost use Rattle.std.specs.Prelude.{◌≡◌, slice_get};
ghost use Rattle.pas_program.specs.Tables as spec;
ghost use Rattle.pas_program.specs.Typed as typed;
ghost use Rattle.pas_program.specs.Types as types;
ghost use Rattle.pas_valid.specs.Passing.{known};

use crate::ground::Ground;
use pas_program::{TypeDef, VarKind};
use sqlite_items::at;

impl<'a> Ground<'a> {
    /// Whether the routine `s` is `r` or around it, where `r` has at most `steps` routines around it.
    fn leads_within(&self, steps: u32, r: u32, s: u32) -> bool
        ensures { result ≡ spec.leads_within steps (known self.now) r s }
    {
        if r == s {
            return true;
        }
        if steps == 0 {
            return false;
        }
        match at(self.routines, r as usize) {
            Some(routine) => match routine.parent {
                Some(parent) => self.leads_within(steps - 1, parent, s),
                None => false,
            },
            None => false,
        }
    }

    /// Whether the routine `s` is the one at hand or around it.
    pub fn is_around(&self, s: u32) -> bool
        ensures { result ≡ spec.is_around (known self.now) self.now.routine s }
    {
        match at(self.routines, self.routine as usize) {
            Some(routine) => self.leads_within(routine.level, self.routine, s),
            None => false,
        }
    }

    pub fn is_visible(&self, v: u32) -> bool
        ensures { result ≡ spec.is_visible (known self.now) self.now.routine v }
    {
        match at(self.vars, v as usize) {
            Some(var) => self.is_around(var.routine),
            None => false,
        }
    }

    pub fn is_own(&self, kind: VarKind, v: u32) -> bool
        ensures { result ≡ spec.is_own (known self.now) self.now.routine kind v }
    {
        match at(self.vars, v as usize) {
            Some(var) => var.routine == self.routine && is_kind(kind, var.kind),
            None => false,
        }
    }

    pub fn is_callable(&self, s: u32) -> bool
        ensures { result ≡ spec.is_callable (known self.now) self.now.routine s }
    {
        match at(self.routines, s as usize) {
            Some(routine) => match routine.parent {
                Some(parent) => self.is_around(parent),
                None => false,
            },
            None => false,
        }
    }

    /// Whether a type is a scalar of this host.
    pub fn has_host(&self, boolean: bool, t: u32) -> bool
        ensures { result ≡ types.has_host boolean (slice_get self.now.types.now t) }
    {
        match at(self.types, t as usize) {
            Some(TypeDef::Scalar { boolean: host, .. }) => boolean == *host,
            _ => false,
        }
    }
}

/// Whether both are one kind.
pub fn is_kind(a: VarKind, b: VarKind) -> bool
    ensures { result ≡ spec.is_kind a b }
{
    match (a, b) {
        (VarKind::Local, VarKind::Local)
        | (VarKind::Value, VarKind::Value)
        | (VarKind::Var, VarKind::Var)
        | (VarKind::Result, VarKind::Result)
        | (VarKind::Slot, VarKind::Slot)
        | (VarKind::Bound, VarKind::Bound) => true,
        _ => false,
    }
}
