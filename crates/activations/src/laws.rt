//! Laws of unfoldings. Each is the contract of a function that does nothing.

ghost use Rattle.std.specs.Prelude.{ℕ, ◌<◌, length};
ghost use Rattle.control_points.specs.declared.flow.Flow.{Flow};
ghost use Rattle.alias_class.specs.Cells.{IsClass};
ghost use Rattle.alias_class.specs.Classes.{class_at};
ghost use Rattle.activations.specs.Drawn.{Drawn, IsUnfolding};
ghost use Rattle.activations.specs.Fitting.{ArcsFit};

use alias_class::what_is_in_scope_is_seen;

/// Each arc of an unfolding leads between the nodes to which its edge leads in their classes: a call to the class that it enters, a return back from
/// its exit, a `goto` to the class around of the routine whose label it names, and all else within a class. That each class is one,
/// `Classes::count` says.
pub fn arcs_fit_their_edges()
    ensures { (f : Flow) (g : Drawn) → IsUnfolding f g → ((i : ℕ) → i < length g.table.classes → IsClass g.table.outline (class_at g.table.classes i)) → ArcsFit f g }
{
    what_is_in_scope_is_seen();
}
