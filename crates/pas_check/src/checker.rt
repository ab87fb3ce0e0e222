ghost use Rattle.std.specs.Prelude.{◌≡◌, ℕ, [], IfErr, IfOk, length, map, true};
ghost use Rattle.pas_program.specs.Places.{LiesIn};
ghost use Rattle.pas_program.specs.Rising.{PlacesRise};
ghost use Rattle.pas_tree.specs.Order.{IsRising, tree_starts};
ghost use Rattle.pas_check.specs.Accepted.{IsProgramOf};
ghost use Rattle.pas_check.specs.Blocks.{IsSound, IsSoundFault, all_ended, at_first, program_start, required};
ghost use Rattle.pas_check.specs.Built.{nothing_built};
ghost use Rattle.pas_check.specs.Fault.{IsWithin};
ghost use Rattle.pas_check.specs.Headings.{inside};
ghost use Rattle.pas_check.specs.Labels.{labelled, unlabelled};
ghost use Rattle.pas_check.specs.Outcome.{IsMemory};
ghost use Rattle.pas_check.specs.Sight.{sight};
ghost use Rattle.pas_check.specs.Spans.{tree_within};
ghost use Rattle.pas_check.specs.Stage.{stage};

use crate::built::Built;
use crate::fault::{CheckFault, Fault};
use crate::frame::Frame;
use crate::meaning::{Meaning, Required, Transput, Value};
use crate::plan::count_bodies;
use crate::scope::{Names, Scope};
use crate::seen::{Made, Seen};
use crate::types::{BOOLEAN, INTEGER, Types};
use indexmap::IndexMap;
use pas_program::Program;
use pas_tree::Tree;
use pas_valid::program_of;
use sqlite_items::Items;
use std::alloc::{AllocError, Global};

/// The walk: what its tests see, and what it makes.
#[derive(Drop)]
pub struct Checker<'t> {
    pub seen: Seen<'t>,
    pub made: Made,
}

/// The checked program of a tree.
///
/// # Errors
///
/// The first test that fails in the order of the text; at one place the lower code.
pub fn check(alloc: Global, text: &[u8], tree: &Tree) -> Result<Program, CheckFault>
    ensures fault { IfErr result (λ e. IsWithin (length text.now) e) }
    ensures sound { IfErr result (λ e. IsSound text.now tree.now e) }
    ensures program { IfOk result (λ p. IsProgramOf text.now tree.now p) }

    // Where the spans of the tree are pieces of a text of so many bytes, all places and spans of the program lie in it.
    ensures places { (len : ℕ) → tree_within len tree.now ≡ true → IfOk result (λ p. LiesIn len p) }

    // Where the constructs of the tree begin at rising places, the places of the parts of each action of the program rise too.
    ensures rising { IsRising 0 (tree_starts tree.now) → IfOk result (λ p. PlacesRise p.routines p.asserts) }
{
    match checked(alloc, text, tree) {
        Ok(program) => Ok(program),
        Err(fault) => Err(fault.told(text.len())),
    }
}

fn checked(alloc: Global, text: &[u8], tree: &Tree) -> Result<Program, Fault>
    ensures sound { IfErr result (λ e. IsSoundFault text.now tree.now e) }
    ensures program { IfOk result (λ p. IsProgramOf text.now tree.now p) }
{
    let mut checker = Checker::new(alloc, text, tree)?;
    checker.program(tree)?;
    checker.into_program()
}

impl<'t> Seen<'t> {
    /// What is seen outside all blocks.
    #[tactic(auto, unfolding(crate::specs::Sight::sight))]
    fn new(alloc: Global, text: &'t [u8]) -> Result<Seen<'t>, Fault>
        ensures first { IfOk result (λ s. (number : ℕ) → inside (sight s) (all_ended required []) (unlabelled number) ≡ at_first text.now number) }
        ensures memory { IfErr result IsMemory }
    {
        Ok(Seen {
            alloc,
            text,
            scopes: Vec::new(alloc),
            types: Types::new(alloc)?,
            heads: Vec::new(alloc),
            level: 0,
            asserting: false,
            looping: IndexMap::new(alloc),
            threatened: IndexMap::new(alloc),
            assigned: IndexMap::new(alloc),
        })
    }
}

impl Made {
    /// Nothing is made so far.
    fn new(alloc: Global, frame: Frame) -> Made
        ensures { result.built ≡ nothing_built frame }
    {
        Made {
            built: Built::new(alloc, frame),
            threats: Vec::new(alloc),
            assigned: Vec::new(alloc),
            lower: Vec::new(alloc),
        }
    }
}

impl<'t> Checker<'t> {
    fn new(alloc: Global, text: &'t [u8], tree: &Tree) -> Result<Checker<'t>, Fault>
        ensures first { IfOk result (λ c. stage c ≡ program_start text.now tree.now) }
        ensures memory { IfErr result IsMemory }
    {
        let number = count_bodies(&tree.block).map_err(Fault::Memory)?;
        let frame = Frame::new(alloc, tree.name, number, None, 0, Items::new(alloc), None);
        let mut checker = Checker {
            seen: Seen::new(alloc, text)?,
            made: Made::new(alloc, frame),
        };
        match outermost(alloc, number) {
            Ok(outermost) => checker.push_scope(outermost)?,
            Err(error) => return Err(Fault::Memory(error)),
        }
        Ok(checker)
    }

    #[tactic(auto, unfolding(crate::specs::Sight::sight))]
    fn into_program(self) -> Result<Program, Fault>
        ensures memory { IfErr result IsMemory }
        ensures types { IfOk result (λ p. p.types ≡ (sight self.entry.seen).types) }
        ensures vars { IfOk result (λ p. p.vars ≡ self.entry.made.built.vars) }
        ensures routines { IfOk result (λ p. p.routines ≡ self.entry.made.built.routines) }
        ensures asserts { IfOk result (λ p. p.asserts ≡ self.entry.made.built.asserts) }
    {
        let Checker { seen, made } = self;
        let Seen { alloc, types, .. } = seen;
        let Made { built, .. } = made;
        let Built {
            vars,
            routines,
            asserts,
            ..
        } = built;
        match program_of(alloc, types.into_list(), vars, routines, asserts) {
            Ok(Some(program)) => Ok(program),
            Ok(None) => Err(Fault::Memory(AllocError)),
            Err(error) => Err(Fault::Memory(error)),
        }
    }
}

/// A constant of the type `Boolean`.
fn truth(value: i32) -> Meaning
    ensures { result ≡ Meaning.Constant (record { boolean = true; value = value }) }
{
    Meaning::Constant(Value {
        boolean: true,
        value,
    })
}

/// What every program may use, with what it stands for (ISO 7185, 6.4.2.2, 6.6.5 and 6.6.6).
fn required_names() -> [(&'static str, Meaning); 15]
    ensures { map (λ n. (n.0.now, n.1)) result ≡ required }
{
    let maxint = Value {
        boolean: false,
        value: i32::MAX,
    };
    [
        ("integer", Meaning::Type(INTEGER)),
        ("boolean", Meaning::Type(BOOLEAN)),
        ("maxint", Meaning::Constant(maxint)),
        ("true", truth(1)),
        ("false", truth(0)),
        ("abs", Meaning::Required(Required::Abs)),
        ("sqr", Meaning::Required(Required::Sqr)),
        ("odd", Meaning::Required(Required::Odd)),
        ("succ", Meaning::Required(Required::Succ)),
        ("pred", Meaning::Required(Required::Pred)),
        ("ord", Meaning::Required(Required::Ord)),
        ("read", Meaning::Transput(Transput::Read)),
        ("readln", Meaning::Transput(Transput::Readln)),
        ("write", Meaning::Transput(Transput::Write)),
        ("writeln", Meaning::Transput(Transput::Writeln)),
    ]
}

/// The block above the program's: what every program may use.
fn outermost(alloc: Global, routine: u32) -> Result<Scope, AllocError>
    ensures names { IfOk result (λ s. s.names ≡ all_ended required []) }
    ensures labels { IfOk result (λ s. labelled s ≡ unlabelled routine) }
{
    let mut names = Names::new(alloc);
    for (name, meaning) in required_names() {
        names.end(alloc, name.as_bytes(), 0, meaning)?;
    }
    Ok(Scope::new(alloc, routine, names))
}
