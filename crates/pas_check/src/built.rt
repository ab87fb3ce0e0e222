//! What is built of the program on the way.

ghost use Rattle.std.specs.Prelude.{◌≡◌, ◌++◌, ◌∷◌, [], IfErr, IfOk, OnOk, length};
ghost use Rattle.pas_check.specs.Built as spec;
ghost use Rattle.pas_check.specs.Built.{with_own, with_routine, with_variable};
ghost use Rattle.pas_check.specs.Outcome.{IsMemory};

use crate::fault::Fault;
use crate::frame::Frame;
use pas_program::{Assert, Routine, Statement, VarDef, VarKind};
use px_base::Span;
use sqlite_items::Items;
use std::alloc::{AllocError, Global};

/// What is built of the program so far, and the routine whose block is at hand.
#[derive(Drop)]
pub struct Built {
    pub vars: Items<VarDef>,
    /// The routines whose blocks have ended.
    pub routines: Items<Routine>,
    pub asserts: Items<Assert>,
    pub frame: Frame,
}

/// A variable of a routine.
fn variable_of(name: Span, routine: u32, kind: VarKind, of_type: u32) -> VarDef
    ensures { result ≡ spec.variable_of name routine kind of_type }
{
    VarDef {
        name,
        routine,
        kind,
        of_type,
        place: name.start,
    }
}

impl Built {
    /// Nothing is built so far.
    pub fn new(alloc: Global, frame: Frame) -> Built
        ensures { result ≡ spec.nothing_built frame }
    {
        Built {
            vars: Items::new(alloc),
            routines: Items::new(alloc),
            asserts: Items::new(alloc),
            frame,
        }
    }

    /// The number of a new variable of the routine at hand.
    pub fn add_own(&mut self, name: Span, kind: VarKind, of_type: u32) -> Result<u32, Fault>
        ensures number { IfOk result (λ n. n ≡ length self.old.vars) }
        ensures built { OnOk result (self.new ≡ with_own name kind of_type self.old) }
        ensures memory { IfErr result IsMemory }
    {
        let routine = self.frame.routine;
        let number = self.add_variable(name, routine, kind, of_type)?;
        match self.frame.take(kind, number) {
            Ok(()) => Ok(number),
            Err(error) => Err(Fault::Memory(error)),
        }
    }

    /// The number of a new variable of any routine.
    pub fn add_variable(
        &mut self,
        name: Span,
        routine: u32,
        kind: VarKind,
        of_type: u32,
    ) -> Result<u32, Fault>
        ensures number { IfOk result (λ n. n ≡ length self.old.vars) }
        ensures built { OnOk result (self.new ≡ with_variable (spec.variable_of name routine kind of_type) self.old) }
        ensures memory { IfErr result IsMemory }
    {
        let Ok(number) = u32::try_from(self.vars.len()) else {
            return Err(Fault::Memory(AllocError));
        };
        match self.vars.push(variable_of(name, routine, kind, of_type)) {
            Ok(()) => Ok(number),
            Err(error) => Err(Fault::Memory(error)),
        }
    }

    /// The number of a new assertion.
    pub fn add_assert(&mut self, assert: Assert) -> Result<u32, AllocError>
        ensures number { IfOk result (λ n. n ≡ length self.old.asserts) }
        ensures built { OnOk result (self.new ≡ record self.old { asserts = self.old.asserts ++ assert ∷ [] }) }
    {
        let number = u32::try_from(self.asserts.len()).map_err(|_| AllocError)?;
        self.asserts.push(assert)?;
        Ok(number)
    }

    /// The routine of a block that has ended, with the names that it declares beside its variables, and its body.
    pub fn add_routine(
        &mut self,
        alloc: Global,
        done: Frame,
        names: Items<Span>,
        body: Statement,
    ) -> Result<(), AllocError>
        ensures number { OnOk result (done.routine ≡ length self.old.routines) }
        ensures built { OnOk result (self.new ≡ with_routine done names body self.old) }
    {
        // Its calls are made with the number that was planned for it.
        if self.routines.len() != done.routine as usize {
            return Err(AllocError);
        }
        self.routines.push(done.finish(alloc, names, body)?)
    }
}
