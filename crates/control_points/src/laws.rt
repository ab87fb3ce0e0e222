//! Laws of the definitions. Each is the contract of a function without a body.
ghost use Rattle.std.specs.Prelude.{◌≡◌, ℕ, ◌<◌, ◌≤◌, ◌↔◌, true, false, List, [], ◌∷◌, length, slice_get, ℤ, Some, None, Ok};
ghost use Rattle.std.specs.List.{list_all};
ghost use Rattle.pas_program.specs.declared.expr.Access.{Access};
ghost use Rattle.pas_program.specs.declared.expr.Expr.{Expr};
ghost use Rattle.pas_program.specs.Each.{each_access, each_expr};
ghost use Rattle.pas_program.specs.Labels.{all_differ, assertion_rule};
ghost use Rattle.pas_program.specs.Scopes.{scope_rule};
ghost use Rattle.pas_program.specs.Tables.{is_visible};
ghost use Rattle.pas_program.specs.Typed.{hosted, reached};
ghost use Rattle.pas_program.specs.Types.{in_host};
ghost use Rattle.control_points.specs.declared.edge.Edge.{Edge};
ghost use Rattle.control_points.specs.declared.fault.Fault.{Fault};
ghost use Rattle.control_points.specs.declared.flow.Flow.{Flow};
ghost use Rattle.control_points.specs.declared.item.Item.{Item};
ghost use Rattle.control_points.specs.declared.point.Point.{Point};
ghost use Rattle.control_points.specs.Actions.{view};
ghost use Rattle.control_points.specs.Chart.{Chart, leaving};
ghost use Rattle.control_points.specs.Evaluation.{Spot, spot, value};
ghost use Rattle.control_points.specs.Finding.{frame_at};
ghost use Rattle.control_points.specs.Fits.{callee_of, routine_at};
ghost use Rattle.control_points.specs.Flows.{chart_of};
ghost use Rattle.control_points.specs.Foreseen.{IsForeseen};
ghost use Rattle.control_points.specs.Judgements.{constants_at};
ghost use Rattle.control_points.specs.Leading.{IsAtEnd, IsCase};
ghost use Rattle.control_points.specs.Matching.{IsMadeAt, IsStep};
ghost use Rattle.control_points.specs.Runs.{IsInput, IsOnTheWay, at, start};
ghost use Rattle.control_points.specs.States.{Frame, State};
ghost use Rattle.control_points.specs.Steps.{moves, halts, fails, is_halted, first_done, next, point_of};
ghost use Rattle.control_points.specs.ValidStates.{Denotes, IsValid, type_of_variable};
ghost use Rattle.control_points.specs.WellFormed.{IsWellFormed};

/// If a run is on the way after j steps, it is so after each smaller number of steps.
pub fn earlier_is_on_the_way()
    ensures { (c : Chart) (items : List Item) (i j : ℕ) → i ≤ j → IsOnTheWay c items j → IsOnTheWay c items i }
{}

/// The chart of a flow is well formed.
pub fn flows_are_well_formed()
    ensures { (f : Flow) → IsWellFormed (chart_of f) }
{}

/// The edge of a call is the only one that leaves its point: where a run stands there, the next step is this call or its error.
pub fn a_call_leaves_its_point_alone()
    ensures { (f : Flow) (k r : ℕ) (e : Edge) → slice_get f.edges k ≡ Some e → callee_of e.act ≡ Some r → leaving f.edges e.from ≡ k ∷ [] }
{}

/// The assertions that belong to a point are of the point's routine.
pub fn assertions_are_of_their_routine()
    ensures { (f : Flow) (p : ℕ) (q : Point) (listed : List ℕ) → slice_get f.points p ≡ Some q → slice_get f.asserts p ≡ Some listed → list_all (assertion_rule f.program.asserts q.routine).assertion listed ≡ true }
{}

/// The constants of the arms that leave one point differ.
pub fn constants_of_a_case_differ()
    ensures { (f : Flow) (p : ℕ) → all_differ (constants_at f.edges p) ≡ true }
{}

/// A run begins in a valid state.
pub fn start_is_valid()
    ensures { (c : Chart) (items : List Item) → IsWellFormed c → IsInput items → IsValid c (start c items) }
{}

/// Each step does the action of an edge that leaves the point of its state, and leads to the edge's target.
pub fn each_step_follows_an_edge()
    ensures { (c : Chart) (s t : State) → next c s ≡ moves t → IsStep c s t }
{}

/// Each activation but the first was made by a step of the run, and until it ends it and those below it stay as that step left them.
pub fn each_activation_was_made()
    ensures { (c : Chart) (items : List Item) (i : ℕ) (s : State) → at c items i ≡ Some s → (d : ℕ) (f : Frame) → 0 < d → frame_at s.stack d ≡ Some f → (j : ℕ) × IsMadeAt c items i d j f }
{}

/// A step from a valid state leads to a valid state.
pub fn next_is_valid()
    ensures { (c : Chart) (s t : State) → IsWellFormed c → IsValid c s → next c s ≡ moves t → IsValid c t }
{}

/// Each state of each run is valid.
pub fn runs_are_valid()
    ensures { (c : Chart) (items : List Item) (i : ℕ) (s : State) → IsWellFormed c → IsInput items → at c items i ≡ Some s → IsValid c s }
{}

/// In a valid state the run has halted, or an action is done or is an error, or the state stands at a `case`.
pub fn only_a_case_may_have_no_action()
    ensures { (c : Chart) (s : State) → IsWellFormed c → IsValid c s → is_halted c s.stack ≡ false → first_done c s (leaving c.edges (point_of s.stack)) ≡ Ok None → IsCase c.edges (point_of s.stack) }
{}

/// In a valid state a run halts where the program's block is at its exit and no other activation is there, and nowhere else.
pub fn a_run_halts_at_its_exit_alone()
    ensures { (c : Chart) (s : State) → IsWellFormed c → IsValid c s → (next c s ≡ halts) ↔ IsAtEnd c.points (length s.stack) (point_of s.stack) }
{}

/// In a valid state a variable that the latest activation sees has a place, which exists and is of the variable's type.
pub fn variables_exist()
    ensures { (c : Chart) (s : State) (r v : ℕ) → IsWellFormed c → IsValid c s → routine_at c.points (point_of s.stack) ≡ Some r → is_visible c.tables r v ≡ true → Denotes c s.stack ((view c s).place v) (type_of_variable c.tables v) }
{}

/// In a valid state an access leads, where its evaluation is no error, to a place that exists and is of the access's type.
pub fn spots_exist()
    ensures { (c : Chart) (s : State) (r : ℕ) (a : Access) (p : Spot) → IsWellFormed c → IsValid c s → routine_at c.points (point_of s.stack) ≡ Some r → each_access (scope_rule c.tables r) a ≡ true → (reached c.tables a).fits ≡ true → spot (view c s) a ≡ Ok p → Denotes c s.stack p.place (c.tables.type_at (reached c.tables a).of_type) }
{}

/// In a valid state the value of an expression is a number of its host: an integer of the language, or 0 or 1 for a Boolean.
pub fn values_lie_in_their_hosts()
    ensures { (c : Chart) (s : State) (r : ℕ) (e : Expr) (z : ℤ) → IsWellFormed c → IsValid c s → routine_at c.points (point_of s.stack) ≡ Some r → each_expr (scope_rule c.tables r) e ≡ true → (hosted c.tables e).fits ≡ true → value (view c s) e ≡ Ok z → in_host (hosted c.tables e).boolean z ≡ true }
{}

/// In a valid state an error of a step is that of a judgement of the point (so `each_judgement_has_a_check` tells its check), or one for
/// which no check stands: an undefined slot, or at the end of a turn of a `for` an undefined control variable or bound.
pub fn each_error_is_foreseen()
    ensures { (c : Chart) (s : State) (f : Fault) → IsWellFormed c → IsValid c s → next c s ≡ fails f → IsForeseen c s f }
{}
