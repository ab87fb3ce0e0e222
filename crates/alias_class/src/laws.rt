//! Laws of classes and cells. Each is the contract of a function that does nothing.

ghost use Rattle.std.specs.Prelude.{◌≡◌, ℕ, List, [], true, IsSome, None, Some};
ghost use Rattle.pas_program.specs.Checked.{tables};
ghost use Rattle.pas_program.specs.Tables.{is_around, is_visible};
ghost use Rattle.control_points.specs.declared.flow.Flow.{Flow};
ghost use Rattle.control_points.specs.declared.item.Item.{Item};
ghost use Rattle.control_points.specs.Fits.{act_at};
ghost use Rattle.control_points.specs.Flows.{chart_of};
ghost use Rattle.control_points.specs.Runs.{IsInput, at};
ghost use Rattle.control_points.specs.States.{State};
ghost use Rattle.alias_class.specs.Calls.{IsSite, callee, links_at};
ghost use Rattle.alias_class.specs.Cells.{IsClass, around, cell_count, inherited_count, is_seen, routine_of};
ghost use Rattle.alias_class.specs.Classes.{Class};
ghost use Rattle.alias_class.specs.Denotation.{AreApart, origin_by};
ghost use Rattle.alias_class.specs.Linked.{LinksShare};
ghost use Rattle.alias_class.specs.Outlines.{outline_of};
ghost use Rattle.alias_class.specs.Storage.{HasItsClass, IsCallAt, IsClosed, IsDisjoint, KeepsReach, SharesLinked, StaysDeeper};

use control_points::{each_activation_was_made, flows_are_well_formed, runs_are_valid};

/// What is in scope in a routine (ISO 7185, 6.2.2) is seen by each of its classes: a variable, and a routine around it, which has its class there.
/// So `resolve`, `resolve_access` and `around` take whatever stands in a checked program.
pub fn what_is_in_scope_is_seen()
    ensures variables { (f : Flow) (c : Class) (v : ℕ) → IsClass (outline_of f) c → is_visible (tables f.program) (routine_of (outline_of f) c) v ≡ true → is_seen (outline_of f) c v ≡ true }
    ensures routines { (f : Flow) (c : Class) (s : ℕ) → IsClass (outline_of f) c → is_around (tables f.program) (routine_of (outline_of f) c) s ≡ true → IsSome (around (outline_of f) c s) }
{}

/// Different cells of a class are different variables of its own, cells of its static parent's class, or cells of the class that calls which its
/// static parent's class has not.
pub fn cells_are_disjoint()
    ensures outermost { (f : Flow) → AreApart (origin_by (outline_of f) [] None) (cell_count (outline_of f) []) 0 0 }
    ensures entered { (f : Flow) (c : Class) (k : ℕ) → IsClass (outline_of f) c → IsSite f.points f.edges (routine_of (outline_of f) c) k → AreApart (origin_by (outline_of f) c (act_at f.edges k)) (cell_count (outline_of f) (callee (outline_of f) f.edges c k)) (inherited_count (outline_of f) (callee (outline_of f) f.edges c k)) (cell_count (outline_of f) c) }
{}

/// The links of a call lead from different cells of the class that calls to the cells of the class that it enters which are no variables of its
/// routine's own, and to each of them.
pub fn links_join_the_shared_cells()
    ensures { (f : Flow) (c : Class) (k : ℕ) → IsClass (outline_of f) c → IsSite f.points f.edges (routine_of (outline_of f) c) k → LinksShare (outline_of f) c (callee (outline_of f) f.edges c k) (links_at (outline_of f) f.edges c k) }
{}

/// In each state of each run, each cell of each activation denotes a variable of an activation, and different cells of one activation denote
/// different variables.
pub fn cells_denote_different_variables()
    ensures { (f : Flow) (items : List Item) (i : ℕ) (s : State) → IsInput items → at (chart_of f) items i ≡ Some s → IsDisjoint (chart_of f) (outline_of f) s.stack }
{
    flows_are_well_formed();
    runs_are_valid();
}

/// A list of classes that has that of the program's block, and with each of its classes those that calls enter from it, has the class of each
/// activation in each state of each run.
pub fn each_activation_has_its_class()
    ensures { (f : Flow) (items : List Item) (i : ℕ) (s : State) (classes : List Class) → IsInput items → at (chart_of f) items i ≡ Some s → IsClosed (chart_of f) (outline_of f) classes → HasItsClass (chart_of f) (outline_of f) classes s.stack }
{
    flows_are_well_formed();
    runs_are_valid();
}

/// While the stack stays deeper than the activation from which a call was made, gotos included, each cell of each deeper activation denotes a
/// variable of a deeper activation, or what a cell linked at the call denotes.
pub fn what_is_hidden_is_out_of_reach()
    ensures { (f : Flow) (items : List Item) (j i d k : ℕ) (caller later : State) → IsInput items → IsCallAt (chart_of f) (outline_of f) items j d k → StaysDeeper (chart_of f) (outline_of f) items j i d → at (chart_of f) items j ≡ Some caller → at (chart_of f) items i ≡ Some later → KeepsReach (chart_of f) (outline_of f) d k caller later }
{
    flows_are_well_formed();
    runs_are_valid();
    each_activation_was_made();
}

/// In each state of each run, what a linked cell denotes of an activation, the cell to which it is linked denotes of the one that it called.
pub fn linked_cells_denote_one_variable()
    ensures { (f : Flow) (items : List Item) (i : ℕ) (s : State) → IsInput items → at (chart_of f) items i ≡ Some s → SharesLinked (chart_of f) (outline_of f) s.stack }
{
    flows_are_well_formed();
    runs_are_valid();
}
