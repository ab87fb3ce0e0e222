//! Laws of the checks: which part each of them judges. Each is the contract of a function without a body.
ghost use Rattle.std.specs.Prelude.{◌≡◌, ℕ, ◌+◌, ◌<◌, length, slice_get, Some};
ghost use Rattle.pas_program.specs.Rising.{PlacesRise};
ghost use Rattle.control_points.specs.declared.check.Check.{Check};
ghost use Rattle.control_points.specs.declared.edge.Act.{Act};
ghost use Rattle.control_points.specs.declared.flow.Flow.{Flow};
ghost use Rattle.control_points.specs.Chart.{Chart};
ghost use Rattle.control_points.specs.Flows.{chart_of};
ghost use Rattle.control_points.specs.Foreseen.{act_checks};
ghost use Rattle.control_points.specs.Judgements.{IsJudged, Judgement, act_judgements, checks_from, fault_of, faults_of, first_check, point_judgements};
ghost use Rattle.control_points.specs.Judging.{check_of};

/// Each check of an action judges a part of it: the checks are the judgements, without what they judge.
pub fn each_check_judges_a_part()
    ensures { (c : Chart) (at : ℕ) (a : Act) → act_checks c at a ≡ faults_of (act_judgements c at a) }
{}

/// The checks of a flow are those of its points, one point after another: of each point the assertions that must always
/// hold, and then the action that leaves it.
pub fn checks_are_those_of_points()
    ensures { (f : Flow) → f.checks ≡ checks_from (chart_of f) 0 (length f.points) }
{}

/// Each check is that of a judgement of its point: its rank among the checks of the point is that of the judgement.
pub fn each_check_is_judged()
    ensures { (f : Flow) (k : ℕ) (d : Check) → slice_get f.checks k ≡ Some d → IsJudged (chart_of f) f.checks k d }
{}

/// Each judgement of a point has its check, at its rank among the checks of the point.
pub fn each_judgement_has_a_check()
    ensures { (f : Flow) (p i : ℕ) (j : Judgement) → p < length f.points → slice_get (point_judgements (chart_of f) p) i ≡ Some j → slice_get f.checks (first_check f.checks p + i) ≡ Some (check_of p (fault_of j)) }
{}

/// Where the places of a program rise, two checks of one point and one kind have different places.
pub fn checks_of_a_kind_differ_in_place()
    ensures { (f : Flow) (j k : ℕ) (d e : Check) → PlacesRise f.program.routines f.program.asserts → slice_get f.checks j ≡ Some d → slice_get f.checks k ≡ Some e → d.point ≡ e.point → d.kind ≡ e.kind → d.at ≡ e.at → j ≡ k }
{}
