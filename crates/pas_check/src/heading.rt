//! The headings of procedures and functions (ISO 7185, 6.6.1 and 6.6.2).

ghost use Rattle.std.specs.Prelude.{◌≡◌, ◌+◌, ◌<◌, ◌∷◌, ◌++◌, [], IfErr, IfOk, OnOk, Some, length};
ghost use Rattle.std.specs.Option.{option_copied, option_map};
ghost use Rattle.pas_check.specs.Built.{frame_of};
ghost use Rattle.pas_check.specs.Declarations.{led, led_by, name_claimed};
ghost use Rattle.pas_check.specs.Formals as formal;
ghost use Rattle.pas_check.specs.Formals.{formal_declared, formed_by};
ghost use Rattle.pas_check.specs.Headings as spec;
ghost use Rattle.pas_check.specs.Headings.{begun, headed, heading_read, number_of, own_names, result_declared, result_read, type_of_variable};
ghost use Rattle.pas_check.specs.Outcome.{Gives, IsMemory};
ghost use Rattle.pas_check.specs.Routine as allowed;
ghost use Rattle.pas_check.specs.Sight.{heading_of, sight};
ghost use Rattle.pas_check.specs.Stage.{stage};
ghost use Rattle.pas_tree.specs.declared.block.RoutineBody.TheViews.{out-Routine};

use crate::actual::Formal;
use crate::checker::Checker;
use crate::fault::{Fault, Rule};
use crate::frame::Frame;
use crate::meaning::{Meaning, Variable};
use crate::scope::{Names, Scope};
use crate::seen::{Made, Seen};
use pas_program::VarKind;
use pas_tree::{Block, Routine, Section};
use px_base::Span;
use sqlite_items::Items;
use std::alloc::{AllocError, Global};

/// How many routines may be around a routine.
const MOST_AROUND: u32 = 16;

/// A declared procedure or function, as its callers see it.
#[derive(Drop)]
pub struct Head {
    /// Its number.
    pub routine: u32,
    pub formals: Vec<Formal>,
    /// The variable for the result of a function.
    pub result: Option<Variable>,
}

/// A function by its heading, and the place of its name.
#[derive(Clone, Copy, Debug, PartialEq, Eq)]
pub struct Function {
    pub head: usize,
    pub at: u32,
}

/// A routine whose heading was read, up to its block.
#[derive(Drop)]
pub struct Opened {
    pub frame: Frame,
    /// Whether its word is `function`.
    pub function: bool,
    /// What its block declares, parameters included.
    pub names: Names,
    /// The function whose result its block gives.
    pub result: Option<Function>,
}

/// Whose formals and result are declared: a routine, and how many are around what it declares.
#[derive(Clone, Copy, Debug, PartialEq, Eq)]
struct Owner {
    routine: u32,
    level: u32,
}

/// A routine whose name is declared: its place among the headings, and how many routines are around what it declares.
#[derive(Clone, Copy, Debug, PartialEq, Eq)]
struct Begun {
    head: usize,
    level: u32,
}

/// The formals of a routine, and the numbers of their variables.
#[derive(Drop)]
struct Formals {
    list: Vec<Formal>,
    numbers: Items<u32>,
}

impl Formals {
    fn add(&mut self, formal: Formal, number: u32) -> Result<(), Fault>
        ensures list { OnOk result (self.new.list.items ≡ self.old.list.items ++ formal ∷ []) }
        ensures numbers { OnOk result (self.new.numbers ≡ self.old.numbers ++ number ∷ []) }
        ensures memory { IfErr result IsMemory }
    {
        if self.numbers.push(number).is_err() {
            return Err(Fault::Memory(AllocError));
        }
        match push_formal(&mut self.list, formal) {
            Ok(()) => Ok(()),
            Err(error) => Err(Fault::Memory(error)),
        }
    }
}

/// What a formal is as a variable.
fn kind_of(by_var: bool) -> VarKind
    ensures { result ≡ formal.kind_of by_var }
{
    if by_var { VarKind::Var } else { VarKind::Value }
}

fn push_head(heads: &mut Vec<Head>, head: Head) -> Result<(), AllocError>
    ensures { OnOk result (heads.new.items ≡ heads.old.items ++ head ∷ []) }
{
    heads.push(head)?;
    Ok(())
}

fn push_formal(formals: &mut Vec<Formal>, formal: Formal) -> Result<(), AllocError>
    ensures { OnOk result (formals.new.items ≡ formals.old.items ++ formal ∷ []) }
{
    formals.push(formal)?;
    Ok(())
}

/// Tests a heading that declares its name: a function has a result type, and not too many routines are around it.
fn heading_allowed(routine: &Routine, around: u32) -> Result<(), Fault>
    ensures value { Gives (λ u. u) (allowed.heading_allowed (out-Routine routine.now) around) result }
    ensures low { OnOk result (around < 16) }
{
    if routine.function && routine.result.is_none() {
        return Err(Rule::Kind.broken(routine.name.start));
    }
    if around >= MOST_AROUND {
        return Err(Rule::Nesting.broken(routine.name.start));
    }
    Ok(())
}

/// The function with a heading, where it has a variable for its result.
fn function_of(head: usize, at: u32, result_variable: Option<Variable>) -> Option<Function>
    ensures { result ≡ spec.function_of head at result_variable }
{
    match result_variable {
        Some(_) => Some(Function { head, at }),
        None => None,
    }
}

impl<'t> Seen<'t> {
    /// The names of a routine's own block: its formals, and what the block declares.
    #[tactic(auto, unfolding(crate::specs::Sight::sight))]
    fn own_names(
        &self,
        lower: &mut Vec<u8>,
        routine: &Routine,
        block: Option<&Block>,
    ) -> Result<Names, Fault>
        ensures names { IfOk result (λ names. names ≡ own_names (sight self.now) routine.now (option_copied block.entry)) }
        ensures memory { IfErr result IsMemory }
    {
        let mut names = Names::new(self.alloc);
        self.note_formals(lower, &mut names, routine.formals.as_slice())?;
        if let Some(block) = block {
            self.note_block(lower, &mut names, block)?;
        }
        Ok(names)
    }

    /// The type of a function's result, which is a scalar.
    #[tactic(auto, unfolding(crate::specs::Routine::result_type, crate::specs::Sight::sight))]
    fn result_type(&self, made: &mut Made, of_type: Span) -> Result<u32, Fault>
        ensures value { Gives (λ t. t) (allowed.result_type (sight self.now) of_type) result }
        ensures kept { made.new.built ≡ made.old.built }
    {
        let number = self.named_type(made, of_type)?;
        if self.types.host(number).is_none() {
            return Err(Rule::Type.broken(of_type.start));
        }
        Ok(number)
    }
}

impl Made {
    /// The frame of a routine inside the one at hand, with the numbers of its formals.
    fn frame_inside(
        &self,
        alloc: Global,
        name: Span,
        owner: Owner,
        numbers: Items<u32>,
        result_variable: Option<Variable>,
    ) -> Frame
        ensures { result ≡ frame_of name owner.routine (Some self.now.built.frame.routine) owner.level numbers (option_map number_of result_variable) }
    {
        let parent = Some(self.built.frame.routine);
        let returned = result_variable.map(|own| own.number);
        Frame::new(
            alloc,
            name,
            owner.routine,
            parent,
            owner.level,
            numbers,
            returned,
        )
    }
}

impl<'t> Checker<'t> {
    /// A heading that declares its name, up to the block.
    #[tactic(auto, unfolding(crate::specs::Headings::heading_read))]
    pub fn heading(
        &mut self,
        routine: &Routine,
        number: u32,
        block: Option<&Block>,
    ) -> Result<Opened, Fault>
        ensures value { Gives (λ o. (stage self.new, o)) (heading_read (stage self.old) routine.now number (option_copied block.entry)) result }
    {
        let begun = self.begun(routine)?;
        let owner = Owner {
            routine: number,
            level: begun.level,
        };
        let names = self.seen.own_names(&mut self.made.lower, routine, block)?;
        self.push_scope(Scope::new(self.seen.alloc, number, names))?;
        let formals = self.formals(owner, routine.formals.as_slice())?;
        let scope = self.pop_scope(number);
        let result = self.result(owner, routine.name, routine.result)?;
        let Formals { list, numbers } = formals;
        self.add_head(Head {
            routine: number,
            formals: list,
            result,
        })?;
        let frame = self
            .made
            .frame_inside(self.seen.alloc, routine.name, owner, numbers, result);
        Ok(Opened {
            frame,
            function: routine.function,
            names: scope.names,
            result: function_of(begun.head, routine.name.start, result),
        })
    }

    /// A routine that callers see from now on.
    #[tactic(auto, unfolding(crate::specs::Sight::sight))]
    fn add_head(&mut self, head: Head) -> Result<(), Fault>
        ensures headed { OnOk result (sight self.new.seen ≡ headed (sight self.old.seen) (heading_of head)) }
        ensures kept { self.new.made.built ≡ self.old.made.built }
        ensures memory { IfErr result IsMemory }
    {
        match push_head(&mut self.seen.heads, head) {
            Ok(()) => Ok(()),
            Err(error) => Err(Fault::Memory(error)),
        }
    }

    /// A heading that declares its name.
    #[tactic(auto, unfolding(crate::specs::Headings::begun, crate::specs::Sight::sight))]
    fn begun(&mut self, routine: &Routine) -> Result<Begun, Fault>
        ensures value { Gives (λ b. sight self.new.seen) (begun (sight self.old.seen) routine.now) result }
        ensures kept { self.new.made.built ≡ self.old.made.built }
        ensures level { IfOk result (λ b. b.level ≡ (sight self.old.seen).level + 1) }
        ensures head { IfOk result (λ b. b.head ≡ length (sight self.old.seen).headings) }
    {
        let name = routine.name;
        self.seen.claim(&mut self.made, name)?;
        let level = self.seen.level;
        heading_allowed(routine, level)?;
        let head = self.seen.heads.len();
        let function = routine.function;
        self.seen
            .define(&mut self.made, name, Meaning::Routine { head, function })?;
        Ok(Begun {
            head,
            level: level + 1,
        })
    }

    /// The formals of a routine.
    fn formals(&mut self, owner: Owner, sections: &[Section]) -> Result<Formals, Fault>
        ensures value { Gives (λ f. formed_by (stage self.new) f) (led_by (formal.section_declared owner) (record { at = stage self.old; formals = []; numbers = [] }) sections.now) result }
    {
        let mut formals = Formals {
            list: Vec::new(self.seen.alloc),
            numbers: Items::new(self.seen.alloc),
        };
        for section in sections {
            self.section_declared(owner, section, &mut formals)?;
        }
        Ok(formals)
    }

    fn section_declared(
        &mut self,
        owner: Owner,
        section: &Section,
        formals: &mut Formals,
    ) -> Result<(), Fault>
        ensures value { Gives (λ u. formed_by (stage self.new) formals.new) (formal.section_declared owner (formed_by (stage self.old) formals.old) section.now) result }
    {
        let names = section.names.as_slice();
        self.claim_names(names)?;
        let of_type = self.seen.named_type(&mut self.made, section.of_type)?;
        let formal = Formal {
            by_var: section.by_var,
            of_type,
        };
        self.formals_declared(owner, names, formal, formals)?;
        Ok(())
    }

    fn formals_declared(
        &mut self,
        owner: Owner,
        names: &[Span],
        formal: Formal,
        formals: &mut Formals,
    ) -> Result<(), Fault>
        ensures value { OnOk result (formed_by (stage self.new) formals.new ≡ led (formal_declared owner formal) (formed_by (stage self.old) formals.old) names.now) }
        ensures memory { IfErr result IsMemory }
    {
        for name in names {
            self.formal_declared(owner, *name, formal, formals)?;
        }
        Ok(())
    }

    /// Declares names whose type is still to be read.
    pub fn claim_names(&mut self, names: &[Span]) -> Result<(), Fault>
        ensures value { Gives (λ u. sight self.new.seen) (led_by name_claimed (sight self.old.seen) names.now) result }
        ensures kept { self.new.made.built ≡ self.old.made.built }
    {
        for name in names {
            self.claim_name(*name)?;
        }
        Ok(())
    }

    #[tactic(auto, unfolding(crate::specs::Declarations::name_claimed))]
    fn claim_name(&mut self, name: Span) -> Result<(), Fault>
        ensures value { Gives (λ u. sight self.new.seen) (name_claimed (sight self.old.seen) name) result }
        ensures kept { self.new.made.built ≡ self.old.made.built }
    {
        self.seen.claim(&mut self.made, name)?;
        self.seen.define(&mut self.made, name, Meaning::Untyped)
    }

    fn formal_declared(
        &mut self,
        owner: Owner,
        name: Span,
        formal: Formal,
        formals: &mut Formals,
    ) -> Result<(), Fault>
        ensures value { OnOk result (formed_by (stage self.new) formals.new ≡ formal_declared owner formal (formed_by (stage self.old) formals.old) name) }
        ensures memory { IfErr result IsMemory }
    {
        let Formal { by_var, of_type } = formal;
        let kind = kind_of(by_var);
        let number = self
            .made
            .built
            .add_variable(name, owner.routine, kind, of_type)?;
        let variable = Variable {
            number,
            at: name.start,
            level: owner.level,
            kind,
            of_type,
        };
        self.seen
            .define(&mut self.made, name, Meaning::Variable(variable))?;
        formals.add(formal, number)?;
        Ok(())
    }

    /// The variable for the result of a function, whose type is a scalar.
    #[tactic(auto, unfolding(crate::specs::Headings::result_read))]
    fn result(
        &mut self,
        owner: Owner,
        name: Span,
        of_type: Option<Span>,
    ) -> Result<Option<Variable>, Fault>
        ensures value { Gives (λ x. option_map type_of_variable x) (result_read (sight self.old.seen) of_type) result }
        ensures variable { IfOk result (λ x. result_declared owner name (option_map type_of_variable x) self.old.made.built ≡ (x, self.new.made.built)) }
        ensures kept { self.new.seen ≡ self.old.seen }
    {
        let Some(of_type) = of_type else {
            return Ok(None);
        };
        let of_type = self.seen.result_type(&mut self.made, of_type)?;
        let kind = VarKind::Result;
        let number = self
            .made
            .built
            .add_variable(name, owner.routine, kind, of_type)?;
        Ok(Some(Variable {
            number,
            at: name.start,
            level: owner.level,
            kind,
            of_type,
        }))
    }
}
