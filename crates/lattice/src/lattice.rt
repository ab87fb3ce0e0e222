ghost use Rattle.std.specs.Prelude.{◌≡◌, ◌≢◌, ℕ, ◌≤◌, IsTrue};
ghost use Rattle.std.specs.Bool.{OnTrue, OnFalse};
ghost use Rattle.lattice.specs.Lattice.{Ops, AreSteps, IsElement, IsLattice};

/// An element of a lattice of finite height with a widening and a narrowing (Cousot and Cousot, POPL 1977).
///
/// An element stands for a set of points. It has a shape, as an environment has its number of cells, and calls on two or
/// three elements ask that all of them have the same one. It also has room for elements of other shapes, which only
/// `copy_from` uses; no call changes the room, and none takes memory.
///
/// Contracts see an element as its plain value, and the calls compute the functions `ops` of plain values. Generic code
/// is proved from the laws of these functions alone.
pub trait Lattice: Sized {
    /// What contracts see of an element: all that its meaning and its shape depend on, without its room.
    type Plain;

    /// What an element stands for a set of.
    ghost Point: { Type 0 };

    ghost value: { Self → Self.Plain };

    /// The greatest shape that the element can take.
    ghost room: { Self → ℕ };

    /// Whether an element of this value stands for the point.
    ghost has: { Self.Plain → Point → Type 0 };

    ghost ops: { Ops Self.Plain };

    /// Whether the element is known to stand for no point.
    fn is_bottom(&self) -> bool
        ensures { result ≡ ops.is_bottom (value self.now) };

    /// Makes it the least element of its shape.
    fn set_bottom(&mut self)
        ensures value { value self.new ≡ ops.bottom (ops.shape (value self.old)) }
        ensures room { room self.new ≡ room self.old };

    /// Takes over the value and the shape of `other`.
    fn copy_from(&mut self, other: &Self)
        requires { ops.shape (value other.now) ≤ room self.old }
        ensures value { value self.new ≡ value other.now }
        ensures room { room self.new ≡ room self.old };

    /// Makes it the join of both.
    fn join_from(&mut self, other: &Self)
        requires { ops.shape (value self.old) ≡ ops.shape (value other.now) }
        ensures value { value self.new ≡ ops.join (value self.old) (value other.now) }
        ensures room { room self.new ≡ room self.old };

    /// Makes it the meet of both.
    fn meet_from(&mut self, other: &Self)
        requires { ops.shape (value self.old) ≡ ops.shape (value other.now) }
        ensures value { value self.new ≡ ops.meet (value self.old) (value other.now) }
        ensures room { room self.new ≡ room self.old };

    /// Whether the element is below `other`.
    fn leq(&self, other: &Self) -> bool
        requires { ops.shape (value self.now) ≡ ops.shape (value other.now) }
        ensures { result ≡ ops.below (value self.now) (value other.now) };

    /// Widens the element by `y` within `limit`, and answers whether it changed. What grows stops at the next of the steps,
    /// which rise, and else at the limit (widening with thresholds: Blanchet and others, PLDI 2003).
    fn widen_from(&mut self, y: &Self, limit: &Self, steps: &[i32]) -> bool
        requires shape { ops.shape (value self.old) ≡ ops.shape (value limit.now) }
        requires shape_of_y { ops.shape (value y.now) ≡ ops.shape (value limit.now) }
        requires within { IsTrue (ops.below (value self.old) (value limit.now)) }
        requires y_within { IsTrue (ops.below (value y.now) (value limit.now)) }
        requires steps { AreSteps steps.now }
        ensures value { value self.new ≡ ops.widen (value self.old) (value y.now) (value limit.now) steps.now }
        ensures room { room self.new ≡ room self.old }
        ensures changed { OnTrue result (value self.new ≢ value self.old) }
        ensures same { OnFalse result (value self.new ≡ value self.old) };

    /// Narrows the element by `y` within `limit`, and answers whether it changed.
    fn narrow_from(&mut self, y: &Self, limit: &Self) -> bool
        requires shape { ops.shape (value self.old) ≡ ops.shape (value limit.now) }
        requires shape_of_y { ops.shape (value y.now) ≡ ops.shape (value limit.now) }
        ensures value { value self.new ≡ ops.narrow (value self.old) (value y.now) (value limit.now) }
        ensures room { room self.new ≡ room self.old }
        ensures changed { OnTrue result (value self.new ≢ value self.old) }
        ensures same { OnFalse result (value self.new ≡ value self.old) };

    /// What the calls compute obeys the laws.
    ghost laws: { IsLattice ops has };

    /// The value of an element is one that an element can have.
    ghost elements: { (x : Self) → IsElement ops (value x) };

    /// An element has room for its own shape.
    ghost fits: { (x : Self) → ops.shape (value x) ≤ room x };
}
