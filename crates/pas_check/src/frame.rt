ghost use Rattle.std.specs.Prelude.{◌≡◌, ◌++◌, ◌∷◌, [], IfOk, OnOk};
ghost use Rattle.pas_check.specs.Built.{finished, frame_of, taken, variables_in};

use pas_program::{Routine, Statement, VarKind};
use px_base::Span;
use sqlite_items::Items;
use std::alloc::{AllocError, Global};

/// A routine whose block is being read.
#[derive(Drop)]
pub struct Frame {
    pub name: Span,
    /// Its number, and that of the routine around it.
    pub routine: u32,
    pub parent: Option<u32>,
    pub level: u32,
    pub formals: Items<u32>,
    pub result: Option<u32>,
    /// The other variables of its block so far: those of its variable part, and the hidden ones for calls and `for` statements.
    pub locals: Items<u32>,
    pub slots: Items<u32>,
    pub bounds: Items<u32>,
}

impl Frame {
    pub fn new(
        alloc: Global,
        name: Span,
        routine: u32,
        parent: Option<u32>,
        level: u32,
        formals: Items<u32>,
        returned: Option<u32>,
    ) -> Frame
        ensures { result ≡ frame_of name routine parent level formals returned }
    {
        Frame {
            name,
            routine,
            parent,
            level,
            formals,
            result: returned,
            locals: Items::new(alloc),
            slots: Items::new(alloc),
            bounds: Items::new(alloc),
        }
    }

    /// Takes in a variable that is no parameter and no result.
    pub fn take(&mut self, kind: VarKind, number: u32) -> Result<(), AllocError>
        ensures { OnOk result (self.new ≡ taken kind number self.old) }
    {
        match kind {
            VarKind::Slot => self.slots.push(number),
            VarKind::Bound => self.bounds.push(number),
            VarKind::Local | VarKind::Value | VarKind::Var | VarKind::Result => {
                self.locals.push(number)
            }
        }
    }

    /// The numbers of its variables: parameters, locals, the result, slots and bounds in this order, each kind by place.
    fn variables(&self, alloc: Global) -> Result<Items<u32>, AllocError>
        ensures { IfOk result (λ vars. vars ≡ variables_in self.now) }
    {
        let mut vars = Vec::from_slice(alloc, self.formals.as_slice())?;
        vars.extend_from_slice(self.locals.as_slice())?;
        if let Some(number) = self.result {
            vars.push(number)?;
        }
        vars.extend_from_slice(self.slots.as_slice())?;
        vars.extend_from_slice(self.bounds.as_slice())?;
        Ok(Items::from_vec(vars))
    }

    /// The routine with this body, whose block declares these names beside its variables.
    pub fn finish(
        self,
        alloc: Global,
        names: Items<Span>,
        body: Statement,
    ) -> Result<Routine, AllocError>
        ensures { IfOk result (λ r. r ≡ finished self names body) }
    {
        let vars = self.variables(alloc)?;
        let Frame {
            name,
            routine: _routine,
            parent,
            level,
            formals,
            result: returned,
            locals: _locals,
            slots: _slots,
            bounds: _bounds,
        } = self;
        Ok(Routine {
            name,
            parent,
            level,
            names,
            formals,
            vars,
            result: returned,
            body,
        })
    }
}
