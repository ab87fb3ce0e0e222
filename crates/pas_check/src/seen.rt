//! What the tests see where the walk stands, and what is made on the way.

ghost use Rattle.std.specs.Prelude.{◌≡◌, IfErr, OnOk};
ghost use Rattle.pas_check.specs.Blocks.{nothing_written};
ghost use Rattle.pas_check.specs.Declarations.{defined};
ghost use Rattle.pas_check.specs.Expr.{claimed, meant};
ghost use Rattle.pas_check.specs.Names as spec;
ghost use Rattle.pas_check.specs.Outcome.{Gives, IsMemory};
ghost use Rattle.pas_check.specs.Routine as allowed;
ghost use Rattle.pas_check.specs.Rules as rules;
ghost use Rattle.pas_check.specs.Sight.{innermost, parts_at, sight};
ghost use Rattle.pas_check.specs.Written.{written};

use crate::built::Built;
use crate::fault::{Fault, Rule};
use crate::heading::{Function, Head};
use crate::meaning::Meaning;
use crate::names::{lower_case, spelling};
use crate::scope::{Scope, denoted, end_innermost, innermost};
use crate::types::Types;
use indexmap::IndexMap;
use px_base::Span;
use std::alloc::Global;

/// What a test may depend on.
#[derive(Drop)]
pub struct Seen<'t> {
    pub alloc: Global,
    pub text: &'t [u8],
    /// The blocks around, the innermost last.
    pub scopes: Vec<Scope>,
    pub types: Types,
    /// The procedures and functions by their headings.
    pub heads: Vec<Head>,
    /// How many routines are around the place of the walk.
    pub level: u32,
    /// Whether the walk is inside an assertion.
    pub asserting: bool,
    /// The control variables of the `for` statements around, by their places.
    pub looping: IndexMap<u32, ()>,
    /// The variables that a routine inside their own threatens, by their places, of the statement parts that have ended.
    pub threatened: IndexMap<u32, ()>,
    /// The functions whose names are assigned to, by their headings, in the statement parts that have ended.
    pub assigned: IndexMap<usize, ()>,
}

/// What is made on the way.
#[derive(Drop)]
pub struct Made {
    pub built: Built,
    /// The variables that the statement part at hand threatens and that are not of its block, by their places.
    pub threats: Vec<u32>,
    /// The functions whose names the statement part at hand assigns to, by their headings.
    pub assigned: Vec<usize>,
    /// The name that was looked up last, in lower case.
    pub lower: Vec<u8>,
}

impl Made {
    /// Spells the name that stands at a span of a text.
    #[tactic(auto, unfolding(crate::specs::Written::written))]
    pub fn spell(&mut self, text: &[u8], span: Span) -> Result<(), Fault>
        ensures name { OnOk result (self.new.lower.items ≡ spec.name_at text.now span) }
        ensures kept { self.new ≡ record self.old { lower = self.new.lower } }
        ensures writes { written self.new ≡ written self.old }
        ensures memory { IfErr result IsMemory }
    {
        match lower_case(spelling(text, span), &mut self.lower) {
            Ok(()) => Ok(()),
            Err(error) => Err(Fault::Memory(error)),
        }
    }

    /// A statement part begins, in which nothing is written so far.
    #[tactic(auto, unfolding(crate::specs::Written::written))]
    pub fn begin_statements(&mut self)
        ensures nothing { written self.new ≡ nothing_written }
        ensures kept { self.new.built ≡ self.old.built }
    {
        self.threats.clear();
        self.assigned.clear();
    }
}

impl<'t> Seen<'t> {
    /// At the end of a function's block, its name is assigned to.
    #[tactic(auto, unfolding(crate::specs::Sight::sight))]
    pub fn result_assigned(&self, function: Option<Function>) -> Result<(), Fault>
        ensures value { Gives (λ u. u) (allowed.result_assigned (sight self.now) function) result }
    {
        match function {
            Some(function) => {
                if self.assigned.contains_key(&function.head) {
                    Ok(())
                } else {
                    Err(Rule::Result.broken(function.at))
                }
            }
            None => Ok(()),
        }
    }

    /// The bytes of a span.
    pub fn spelling(&self, span: Span) -> &'t [u8]
        ensures { result.now ≡ spec.spelling self.now.text.now span }
    {
        spelling(self.text, span)
    }

    /// Whether the walk is inside an assertion.
    #[tactic(auto, unfolding(crate::specs::Sight::sight))]
    pub fn is_asserting(&self) -> bool
        ensures { result ≡ (sight self.now).asserting }
    {
        self.asserting
    }

    /// The index and the element type of an array type.
    #[tactic(auto, unfolding(crate::specs::Sight::sight))]
    pub fn parts(&self, t: u32) -> Option<(u32, u32)>
        ensures { result ≡ parts_at (sight self.now) t }
    {
        self.types.parts(t)
    }

    /// What a name stands for where it is used: its first declaration in the innermost block that declares it.
    #[tactic(auto, unfolding(crate::specs::Expr::meant, crate::specs::Expr::meant_by, crate::specs::Sight::sight))]
    pub fn meaning(&self, made: &mut Made, span: Span) -> Result<Meaning, Fault>
        ensures value { Gives (λ m. m) (meant (sight self.now) span) result }
        ensures kept { made.new ≡ record made.old { lower = made.new.lower } }
        ensures writes { written made.new ≡ written made.old }
    {
        made.spell(self.text, span)?;
        match denoted(self.scopes.as_slice(), made.lower.as_slice()) {
            None => Err(Rule::Known.broken(span.start)),
            Some(declaration) => match declaration.meaning {
                None => Err(Rule::DeclaredBefore.broken(span.start)),
                Some(meaning) => Ok(meaning),
            },
        }
    }

    /// Tests that the innermost block declares the name here and not before.
    #[tactic(auto, unfolding(crate::specs::Expr::claimed, crate::specs::Sight::sight))]
    pub fn claim(&self, made: &mut Made, span: Span) -> Result<(), Fault>
        ensures value { Gives (λ u. u) (claimed (sight self.now) span) result }
        ensures kept { made.new ≡ record made.old { lower = made.new.lower } }
        ensures writes { written made.new ≡ written made.old }
    {
        made.spell(self.text, span)?;
        if self.is_declared_before(made.lower.as_slice(), span.start) {
            Err(Rule::DeclaredOnce.broken(span.start))
        } else {
            Ok(())
        }
    }

    /// Whether the innermost block declares a name at another place than this one.
    #[tactic(auto, unfolding(crate::specs::Sight::sight))]
    fn is_declared_before(&self, name: &[u8], at: u32) -> bool
        ensures { result ≡ rules.is_declared_before name.now at (innermost (sight self.now).blocks) }
    {
        match innermost(self.scopes.as_slice()) {
            Some(scope) => match scope.names.get(name) {
                Some(declaration) => declaration.at != at,
                None => false,
            },
            None => false,
        }
    }

    /// Gives the name its meaning in the innermost block.
    #[tactic(auto, unfolding(crate::specs::Declarations::defined, crate::specs::Sight::sight))]
    pub fn define(&mut self, made: &mut Made, span: Span, meaning: Meaning) -> Result<(), Fault>
        ensures defined { OnOk result (sight self.new ≡ defined (sight self.old) span meaning) }
        ensures writes { written made.new ≡ written made.old }
        ensures memory { IfErr result IsMemory }
        ensures kept { made.new.built ≡ made.old.built }
    {
        made.spell(self.text, span)?;
        let name = made.lower.as_slice();
        match end_innermost(self.alloc, &mut self.scopes, name, span.start, meaning) {
            Ok(()) => Ok(()),
            Err(error) => Err(Fault::Memory(error)),
        }
    }
}
