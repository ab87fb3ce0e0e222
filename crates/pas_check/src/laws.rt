//! Laws of the rules as a whole: a tree has at most one answer, be it the first rule that it breaks or a program.

ghost use Rattle.std.specs.Prelude.{◌≡◌, ℕ, List, true};
ghost use Rattle.pas_program.specs.declared.program.Program.{Program};
ghost use Rattle.pas_program.specs.Places.{LiesIn};
ghost use Rattle.pas_program.specs.Rising.{PlacesRise};
ghost use Rattle.pas_tree.specs.declared.block.Tree.{Tree};
ghost use Rattle.pas_tree.specs.Order.{IsRising, tree_starts};
ghost use Rattle.pas_check.specs.declared.fault.Rule.{Rule};
ghost use Rattle.pas_check.specs.Accepted.{IsProgramOf};
ghost use Rattle.pas_check.specs.Blocks.{IsFirstBroken, ProgramMay};
ghost use Rattle.pas_check.specs.Outcome.{Outcome};
ghost use Rattle.pas_check.specs.Spans.{tree_within};
ghost use Rattle.pas_check.specs.Stage.{Stage};

/// A law: a tree has at most one answer, which is the fault of the first rule that it breaks or where the walk stands after it.
pub fn a_tree_has_one_answer()
    ensures { (text : List ℕ) (tree : Tree) (o u : Outcome Stage) → ProgramMay text tree o → ProgramMay text tree u → o ≡ u }
{}

/// A law: a tree that breaks a rule stands for no program.
pub fn a_fault_and_a_program_exclude_each_other()
    ensures { (text : List ℕ) (tree : Tree) (rule : Rule) (at : ℕ) (p : Program) → IsFirstBroken text tree rule at → IsProgramOf text tree p → ⊥ }
{}

/// A law: of the rules that a tree breaks at most one is the first, and at one place.
pub fn a_tree_has_one_first_fault()
    ensures rule { (text : List ℕ) (tree : Tree) (rule other : Rule) (at there : ℕ) → IsFirstBroken text tree rule at → IsFirstBroken text tree other there → rule ≡ other }
    ensures place { (text : List ℕ) (tree : Tree) (rule other : Rule) (at there : ℕ) → IsFirstBroken text tree rule at → IsFirstBroken text tree other there → at ≡ there }
{}

/// A law: a tree stands for at most one program: two have the same types, variables, routines and assertions.
pub fn a_tree_has_one_program()
    ensures types { (text : List ℕ) (tree : Tree) (p q : Program) → IsProgramOf text tree p → IsProgramOf text tree q → p.types ≡ q.types }
    ensures vars { (text : List ℕ) (tree : Tree) (p q : Program) → IsProgramOf text tree p → IsProgramOf text tree q → p.vars ≡ q.vars }
    ensures routines { (text : List ℕ) (tree : Tree) (p q : Program) → IsProgramOf text tree p → IsProgramOf text tree q → p.routines ≡ q.routines }
    ensures asserts { (text : List ℕ) (tree : Tree) (p q : Program) → IsProgramOf text tree p → IsProgramOf text tree q → p.asserts ≡ q.asserts }
{}

/// A law: where the spans of a tree are pieces of a text of so many bytes, so are the spans of its program, and each place of the program
/// is that of a byte of the text.
pub fn places_lie_in_the_text()
    ensures { (len : ℕ) (text : List ℕ) (tree : Tree) (p : Program) → tree_within len tree ≡ true → IsProgramOf text tree p → LiesIn len p }
{}

/// A law: where the constructs of a tree begin at rising places, as in each tree that the parser makes, the places of the parts of each
/// action in its program rise too.
pub fn places_rise_in_the_program()
    ensures { (text : List ℕ) (tree : Tree) (p : Program) → IsRising 0 (tree_starts tree) → IsProgramOf text tree p → PlacesRise p.routines p.asserts }
{}
