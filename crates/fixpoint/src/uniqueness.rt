ghost use Rattle.std.specs.Prelude.{◌≡◌, List, ℤ};
ghost use Rattle.weak_order.specs.Order.{Elements};
ghost use Rattle.fixpoint.specs.System.{System};
ghost use Rattle.fixpoint.specs.Ascent.{IsAscent};
ghost use Rattle.fixpoint.specs.Descent.{IsDescent};

use lattice::Lattice;

/// A law of the definitions: a system has one ascent inside limits by the same steps, and one descent from a table.
pub fn solutions_are_unique<L: Lattice>()
    ensures ascent { (system : System L.Plain) (limits : List L.Plain) (steps : List ℤ) (elements : Elements) (t u : List L.Plain)
        → IsAscent L.ops system limits steps elements t → IsAscent L.ops system limits steps elements u → t ≡ u }
    ensures descent { (system : System L.Plain) (limits : List L.Plain) (elements : Elements) (from t u : List L.Plain)
        → IsDescent L.ops system limits elements from t → IsDescent L.ops system limits elements from u → t ≡ u }
{}
