//! The names that a block declares beside its variables. They too hide variables of the blocks around (ISO 7185, 6.2.2).

ghost use Rattle.std.specs.Prelude.{◌≡◌, ◌++◌, ◌∷◌, [], IfErr, IfOk, OnOk, flat_map, map};
ghost use Rattle.pas_check.specs.Block.{const_name, routine_name, type_name};
ghost use Rattle.pas_check.specs.Hiding as spec;
ghost use Rattle.pas_check.specs.Hiding.{is_declaring};
ghost use Rattle.pas_check.specs.Outcome.{IsMemory};

use crate::fault::Fault;
use crate::names::{lower_case, spelling};
use crate::scope::Names;
use crate::seen::Seen;
use pas_tree::{Block, ConstDecl, Routine, TypeDecl};
use px_base::Span;
use sqlite_items::Items;

impl<'t> Seen<'t> {
    /// The names of the constants, types and routines that a block declares, in the order of the text.
    pub fn other_names(&self, lower: &mut Vec<u8>, block: &Block) -> Result<Items<Span>, Fault>
        ensures names { IfOk result (λ names. names ≡ spec.other_names self.now.text.now block.now) }
        ensures memory { IfErr result IsMemory }
    {
        let routines = block.routines.as_slice();
        let mut noted = Names::new(self.alloc);
        self.note_routines(lower, &mut noted, routines)?;
        let mut names = Items::new(self.alloc);
        push_consts(&mut names, block.consts.as_slice())?;
        push_types(&mut names, block.types.as_slice())?;
        self.push_routines(lower, &noted, &mut names, routines)?;
        Ok(names)
    }

    /// The names of the headings that declare them.
    fn push_routines(
        &self,
        lower: &mut Vec<u8>,
        noted: &Names,
        names: &mut Items<Span>,
        routines: &[Routine],
    ) -> Result<(), Fault>
        ensures names { OnOk result (names.new ≡ names.old ++ flat_map (spec.if_declaring self.now.text.now noted.now) (map routine_name routines.now)) }
        ensures memory { IfErr result IsMemory }
    {
        for routine in routines {
            self.push_routine(lower, noted, names, routine.name)?;
        }
        Ok(())
    }

    fn push_routine(
        &self,
        lower: &mut Vec<u8>,
        noted: &Names,
        names: &mut Items<Span>,
        name: Span,
    ) -> Result<(), Fault>
        ensures names { OnOk result (names.new ≡ names.old ++ spec.if_declaring self.now.text.now noted.now name) }
        ensures memory { IfErr result IsMemory }
    {
        if self.is_declaring(lower, noted, name)? {
            push(names, name)
        } else {
            Ok(())
        }
    }

    /// Whether a name is noted at its own place.
    fn is_declaring(&self, lower: &mut Vec<u8>, noted: &Names, name: Span) -> Result<bool, Fault>
        ensures value { IfOk result (λ b. b ≡ is_declaring self.now.text.now noted.now name) }
        ensures memory { IfErr result IsMemory }
    {
        lower_case(spelling(self.text, name), lower).map_err(Fault::Memory)?;
        match noted.get(lower.as_slice()) {
            Some(declaration) => Ok(declaration.at == name.start),
            None => Ok(false),
        }
    }
}

fn push_consts(names: &mut Items<Span>, decls: &[ConstDecl]) -> Result<(), Fault>
    ensures names { OnOk result (names.new ≡ names.old ++ map const_name decls.now) }
    ensures memory { IfErr result IsMemory }
{
    for decl in decls {
        push(names, decl.name)?;
    }
    Ok(())
}

fn push_types(names: &mut Items<Span>, decls: &[TypeDecl]) -> Result<(), Fault>
    ensures names { OnOk result (names.new ≡ names.old ++ map type_name decls.now) }
    ensures memory { IfErr result IsMemory }
{
    for decl in decls {
        push(names, decl.name)?;
    }
    Ok(())
}

fn push(names: &mut Items<Span>, name: Span) -> Result<(), Fault>
    ensures names { OnOk result (names.new ≡ names.old ++ name ∷ []) }
    ensures memory { IfErr result IsMemory }
{
    match names.push(name) {
        Ok(()) => Ok(()),
        Err(error) => Err(Fault::Memory(error)),
    }
}
