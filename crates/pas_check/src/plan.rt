//! What a block declares, before its walk begins.

ghost use Rattle.std.specs.Prelude.{◌≡◌, ℕ, ◌+◌, ◌&&◌, ◌++◌, ◌∷◌, [], Bool, IfErr, IfOk, List, None, OnOk, Some, flat_map, if◌then◌else◌, is_some, map, reverse};
ghost use Rattle.std.specs.Bool.{beq};
ghost use Rattle.std.specs.Option.{option_map};
ghost use Rattle.std.specs.Str.{bytes_eq};
ghost use Rattle.pas_tree.specs.declared.block.Routine.{Routine};
ghost use Rattle.pas_check.specs.Block.{const_name, ends_inside, ends_of, names_in, routine_name, section_names, type_name, var_names};
ghost use Rattle.pas_check.specs.Blocks.{block_of, bodies_given, lacking_by, plan_of, planned, planned_of};
ghost use Rattle.pas_check.specs.Names.{Name, name_at, noted, noted_all};
ghost use Rattle.pas_check.specs.Outcome.{IsMemory};
ghost use Rattle.pas_check.specs.Plans as spec;
ghost use Rattle.pas_check.specs.Plans.{ArePlanned, block_at, block_by, block_given, numbers_from, waiting_plan};

use crate::fault::Fault;
use crate::names::{lower_case, spelling};
use crate::scope::Names;
use crate::seen::Seen;
use indexmap::IndexMap;
use pas_tree::{Block, ConstDecl, Routine, RoutineBody, Section, TypeDecl, VarDecl};
use px_base::Span;
use std::alloc::{AllocError, Global};

/// A heading of a block.
#[derive(Clone, Copy, Debug)]
pub struct Plan<'b> {
    /// The number of the routine.
    pub number: u32,
    /// The block that a heading without one waits for.
    pub later: Option<&'b Block>,
}

/// The headings of a block, before they are walked.
#[derive(Drop)]
pub struct Plans<'b> {
    /// From the last to the first.
    pub list: Vec<Plan<'b>>,
    /// The first `forward` heading without a body, by the place of its name.
    pub lacking: Option<u32>,
}

/// The first headings with blocks among those that were read, by their names in lower case.
#[derive(Drop)]
struct Bodies<'b> {
    procedures: IndexMap<Vec<u8>, Body<'b>>,
    functions: IndexMap<Vec<u8>, Body<'b>>,
}

/// A block, and the number of its routine.
#[derive(Clone, Copy, Debug)]
struct Body<'b> {
    number: u32,
    block: &'b Block,
}

impl<'b> Bodies<'b> {
    fn new(alloc: Global) -> Bodies<'b>
        ensures { (name : Name) → (function : Bool) → block_given result name function ≡ None }
    {
        Bodies {
            procedures: IndexMap::new(alloc),
            functions: IndexMap::new(alloc),
        }
    }

    fn get(&self, name: &[u8], function: bool) -> Option<Body<'b>>
        ensures { option_map block_by result ≡ block_given self.now name.now function }
    {
        if function {
            self.functions.get(name).copied()
        } else {
            self.procedures.get(name).copied()
        }
    }

    fn set(
        &mut self,
        alloc: Global,
        name: &[u8],
        function: bool,
        body: Body<'b>,
    ) -> Result<(), AllocError>
        ensures { OnOk result ((other : Name) → (word : Bool) → block_given self.new other word ≡ (if bytes_eq other name.now && beq word function then Some (block_by body.entry) else block_given self.old other word)) }
    {
        if function {
            set_body(&mut self.functions, alloc, name, body)
        } else {
            set_body(&mut self.procedures, alloc, name, body)
        }
    }
}

fn set_body<'b>(
    bodies: &mut IndexMap<Vec<u8>, Body<'b>>,
    alloc: Global,
    name: &[u8],
    body: Body<'b>,
) -> Result<(), AllocError>
    ensures { OnOk result ((other : Name) → block_at other bodies.new.entries ≡ (if bytes_eq other name.now then Some (block_by body.entry) else block_at other bodies.old.entries)) }
{
    let key = Vec::from_slice(alloc, name)?;
    bodies.insert(key, body)?;
    Ok(())
}

/// How many routines have their statement parts inside a block, without the block's own.
#[tactic(auto, unfolding(crate::specs::Block::ends_inside, crate::specs::Block::ends_of))]
#[cycle(count)]
pub fn count_bodies(block: &Block) -> Result<u32, AllocError>
    ensures { IfOk result (λ n. n ≡ ends_inside block.now) }
{
    let mut count = 0u32;
    for routine in block.routines.as_slice() {
        count = sum(count, count_routine(routine)?)?;
    }
    Ok(count)
}

/// The same with the routine's own, if it has a block.
#[tactic(auto, unfolding(crate::specs::Block::ends_inside, crate::specs::Block::ends_of))]
#[cycle(count)]
fn count_routine(routine: &Routine) -> Result<u32, AllocError>
    ensures { IfOk result (λ n. n ≡ ends_of routine.now) }
{
    match &routine.body {
        RoutineBody::Block(block) => sum(count_bodies(block)?, 1),
        RoutineBody::Word(_) => Ok(0),
    }
}

/// The sum of two counts of routines, for which there is room.
fn sum(a: u32, b: u32) -> Result<u32, AllocError>
    ensures { IfOk result (λ n. n ≡ a + b) }
{
    a.checked_add(b).ok_or(AllocError)
}

fn push(numbers: &mut Vec<u32>, number: u32) -> Result<(), AllocError>
    ensures { OnOk result (numbers.new.items ≡ numbers.old.items ++ number ∷ []) }
{
    numbers.push(number)?;
    Ok(())
}

/// The number of the routine of a heading with a block, before which so many routines end, where so many end in it, itself
/// included. A heading without a block has any.
#[tactic(auto, unfolding(crate::specs::Block::ends_inside, crate::specs::Block::ends_of))]
fn own_number(before: u32, ends: u32, routine: &Routine) -> Result<u32, AllocError>
    requires { ends ≡ ends_of routine.now }
    ensures { IfOk result (λ n. n ≡ spec.own_number before (block_of routine.now)) }
{
    match &routine.body {
        RoutineBody::Block(_) => sum(before, ends - 1),
        RoutineBody::Word(_) => Ok(before),
    }
}

/// The numbers of the routines of headings, before which so many routines end.
fn numbers(alloc: Global, first: u32, routines: &[Routine]) -> Result<Vec<u32>, AllocError>
    ensures { IfOk result (λ numbers. numbers.items ≡ numbers_from first routines.now) }
{
    let mut numbers = Vec::new(alloc);
    let mut before = first;
    for routine in routines {
        let ends = count_routine(routine)?;
        push(&mut numbers, own_number(before, ends, routine)?)?;
        before = sum(before, ends)?;
    }
    Ok(numbers)
}

impl<'b> Plans<'b> {
    fn push(&mut self, plan: Plan<'b>) -> Result<(), AllocError>
        ensures list { OnOk result (self.new.list.items ≡ self.old.list.items ++ plan.entry ∷ []) }
        ensures lacking { self.new.lacking ≡ self.old.lacking }
    {
        self.list.push(plan)?;
        Ok(())
    }

    /// A heading without a block, at a place, and the body that comes after it.
    fn wait(&mut self, number: u32, at: u32, body: Option<Body<'b>>) -> Result<(), AllocError>
        ensures plan { OnOk result (map plan_of self.new.list.items ≡ map plan_of self.old.list.items ++ waiting_plan number (option_map block_by body.entry) ∷ []) }
        ensures lacking { OnOk result (self.new.lacking ≡ (if is_some body.entry then self.old.lacking else Some at)) }
    {
        match body {
            Some(body) => self.push(Plan {
                number: body.number,
                later: Some(body.block),
            }),
            None => {
                self.lacking = Some(at);
                self.push(Plan {
                    number,
                    later: None,
                })
            }
        }
    }
}

impl<'t> Seen<'t> {
    /// The numbers of the headings of a block, and which of them go together.
    ///
    /// `first` is the number of routines that have ended before.
    pub fn plans<'b>(
        &self,
        lower: &mut Vec<u8>,
        first: u32,
        routines: &'b [Routine],
    ) -> Result<Plans<'b>, Fault>
        ensures plans { IfOk result (λ plans. map plan_of (reverse plans.list.items) ≡ map planned_of (planned self.now.text.now first routines.now)) }
        ensures lacking { IfOk result (λ plans. lacking_by plans.lacking ≡ bodies_given self.now.text.now routines.now) }
        ensures memory { IfErr result IsMemory }
    {
        let mut numbers = numbers(self.alloc, first, routines).map_err(Fault::Memory)?;
        let mut bodies = Bodies::new(self.alloc);
        let mut plans = Plans {
            list: Vec::new(self.alloc),
            lacking: None,
        };
        let mut rest = routines;
        while let Some((routine, before)) = rest.split_last() {
            let number = numbers.pop().unwrap_or(first);
            self.plan(lower, routine, number, &mut bodies, &mut plans)?;
            rest = before;
        }
        Ok(plans)
    }

    /// The plan of a heading, before those of the headings after it.
    fn plan<'b>(
        &self,
        lower: &mut Vec<u8>,
        routine: &'b Routine,
        number: u32,
        bodies: &mut Bodies<'b>,
        plans: &mut Plans<'b>,
    ) -> Result<(), Fault>
        ensures value { (before : ℕ) → (rest : List Routine) → number ≡ spec.own_number before (block_of routine.now) → ArePlanned self.now.text.now bodies.old plans.old (before + ends_of routine.now) rest
            → OnOk result (ArePlanned self.now.text.now bodies.new plans.new before (routine.now ∷ rest)) }
        ensures memory { IfErr result IsMemory }
    {
        lower_case(spelling(self.text, routine.name), lower).map_err(Fault::Memory)?;
        let name = lower.as_slice();
        let function = routine.function;
        match &routine.body {
            RoutineBody::Block(block) => {
                bodies
                    .set(self.alloc, name, function, Body { number, block })
                    .map_err(Fault::Memory)?;
                plans
                    .push(Plan {
                        number,
                        later: None,
                    })
                    .map_err(Fault::Memory)
            }
            RoutineBody::Word(_) => plans
                .wait(number, routine.name.start, bodies.get(name, function))
                .map_err(Fault::Memory),
        }
    }
}

impl<'t> Seen<'t> {
    /// Takes note of the names that a block declares.
    #[tactic(auto, using(crate::proofs::Noted::noted_append))]
    pub fn note_block(
        &self,
        lower: &mut Vec<u8>,
        declared: &mut Names,
        block: &Block,
    ) -> Result<(), Fault>
        ensures names { OnOk result (declared.new ≡ noted_all self.now.text.now (names_in block.now) declared.old) }
        ensures memory { IfErr result IsMemory }
    {
        self.note_consts(lower, declared, block.consts.as_slice())?;
        self.note_types(lower, declared, block.types.as_slice())?;
        self.note_vars(lower, declared, block.vars.as_slice())?;
        self.note_routines(lower, declared, block.routines.as_slice())?;
        Ok(())
    }

    fn note_consts(
        &self,
        lower: &mut Vec<u8>,
        declared: &mut Names,
        decls: &[ConstDecl],
    ) -> Result<(), Fault>
        ensures names { OnOk result (declared.new ≡ noted_all self.now.text.now (map const_name decls.now) declared.old) }
        ensures memory { IfErr result IsMemory }
    {
        for decl in decls {
            self.note(lower, declared, decl.name)?;
        }
        Ok(())
    }

    fn note_types(
        &self,
        lower: &mut Vec<u8>,
        declared: &mut Names,
        decls: &[TypeDecl],
    ) -> Result<(), Fault>
        ensures names { OnOk result (declared.new ≡ noted_all self.now.text.now (map type_name decls.now) declared.old) }
        ensures memory { IfErr result IsMemory }
    {
        for decl in decls {
            self.note(lower, declared, decl.name)?;
        }
        Ok(())
    }

    fn note_vars(
        &self,
        lower: &mut Vec<u8>,
        declared: &mut Names,
        decls: &[VarDecl],
    ) -> Result<(), Fault>
        ensures names { OnOk result (declared.new ≡ noted_all self.now.text.now (flat_map var_names decls.now) declared.old) }
        ensures memory { IfErr result IsMemory }
    {
        for decl in decls {
            self.note_names(lower, declared, decl.names.as_slice())?;
        }
        Ok(())
    }

    /// Takes note of the names of headings.
    pub fn note_routines(
        &self,
        lower: &mut Vec<u8>,
        declared: &mut Names,
        routines: &[Routine],
    ) -> Result<(), Fault>
        ensures names { OnOk result (declared.new ≡ noted_all self.now.text.now (map routine_name routines.now) declared.old) }
        ensures memory { IfErr result IsMemory }
    {
        for routine in routines {
            self.note(lower, declared, routine.name)?;
        }
        Ok(())
    }

    /// Takes note of the names of parameters.
    pub fn note_formals(
        &self,
        lower: &mut Vec<u8>,
        declared: &mut Names,
        sections: &[Section],
    ) -> Result<(), Fault>
        ensures names { OnOk result (declared.new ≡ noted_all self.now.text.now (flat_map section_names sections.now) declared.old) }
        ensures memory { IfErr result IsMemory }
    {
        for section in sections {
            self.note_names(lower, declared, section.names.as_slice())?;
        }
        Ok(())
    }

    fn note_names(
        &self,
        lower: &mut Vec<u8>,
        declared: &mut Names,
        names: &[Span],
    ) -> Result<(), Fault>
        ensures names { OnOk result (declared.new ≡ noted_all self.now.text.now names.now declared.old) }
        ensures memory { IfErr result IsMemory }
    {
        for name in names {
            self.note(lower, declared, *name)?;
        }
        Ok(())
    }

    fn note(&self, lower: &mut Vec<u8>, declared: &mut Names, name: Span) -> Result<(), Fault>
        ensures names { OnOk result (declared.new ≡ noted (name_at self.now.text.now name) name.start declared.old) }
        ensures memory { IfErr result IsMemory }
    {
        lower_case(spelling(self.text, name), lower).map_err(Fault::Memory)?;
        match declared.note(self.alloc, lower.as_slice(), name.start) {
            Ok(()) => Ok(()),
            Err(error) => Err(Fault::Memory(error)),
        }
    }
}
