ghost use Rattle.std.specs.Prelude.{◌≡◌, ◌≤◌};
ghost use Rattle.pas_check.specs.Fault.{IsTold, IsWithin};
ghost use Rattle.pas_check.specs.Rules.{code_of};

use std::alloc::AllocError;
use thiserror::Error;

/// Why a tree is no checked program.
#[derive(Debug, Drop, Error)]
pub enum CheckFault {
    /// The rule of this number, from 1 to 18, is broken at this place.
    #[error("rule {code} is broken at byte {at}")]
    Wrong { code: u8, at: u32 },
    #[error(transparent)]
    Memory(AllocError),
}

/// The same with the rule by name.
#[derive(Debug, Drop)]
pub enum Fault {
    Broken { rule: Rule, at: u32 },
    Memory(AllocError),
}

impl Fault {
    /// The fault as it is told, at a place within a text of this length.
    pub fn told(self, length: usize) -> CheckFault
        ensures within { IsWithin length result }
        ensures told { IsTold length self result }
    {
        match self {
            Fault::Memory(error) => CheckFault::Memory(error),
            Fault::Broken { rule, at } => CheckFault::Wrong {
                code: rule.code(),
                at: if at as usize <= length { at } else { 0 },
            },
        }
    }
}

/// The rules that a program may break.
#[derive(Clone, Copy, Debug, PartialEq, Eq)]
pub enum Rule {
    /// A name is declared by a block around it.
    Known,
    /// A block declares a name or a label once.
    DeclaredOnce,
    /// A declaration ends before the name is used.
    DeclaredBefore,
    /// A name is of the kind that its place needs.
    Kind,
    /// A type is the one that its place needs.
    Type,
    /// A call has as many actuals as there are formals.
    ActualCount,
    /// A var actual is a variable of the formal's very type.
    VarActual,
    /// A subrange has a value.
    Range,
    /// A label is declared and placed once.
    Label,
    /// A `goto` may reach its label.
    Goto,
    /// A control variable is a local scalar that nothing threatens.
    Control,
    /// The constants of a `case` differ.
    CaseConstant,
    /// A function's block assigns to its name.
    Result,
    /// A `forward` heading has a body.
    Body,
    /// An assertion calls no function.
    AssertionCall,
    /// An array has at most 1,000,000 scalars.
    Elements,
    /// At most 16 routines are around one.
    Nesting,
    /// A label is at most 9999.
    LabelValue,
}

impl Rule {
    /// Its number in `CheckFault::Wrong`.
    pub fn code(self) -> u8
        ensures value { result ≡ code_of self }
        ensures low { 1 ≤ result }
        ensures high { result ≤ 18 }
    {
        match self {
            Rule::Known => 1,
            Rule::DeclaredOnce => 2,
            Rule::DeclaredBefore => 3,
            Rule::Kind => 4,
            Rule::Type => 5,
            Rule::ActualCount => 6,
            Rule::VarActual => 7,
            Rule::Range => 8,
            Rule::Label => 9,
            Rule::Goto => 10,
            Rule::Control => 11,
            Rule::CaseConstant => 12,
            Rule::Result => 13,
            Rule::Body => 14,
            Rule::AssertionCall => 15,
            Rule::Elements => 16,
            Rule::Nesting => 17,
            Rule::LabelValue => 18,
        }
    }

    /// The fault that it is broken at `at`.
    pub fn broken(self, at: u32) -> Fault
        ensures { result ≡ Fault.Broken self at }
    {
        Fault::Broken { rule: self, at }
    }
}
