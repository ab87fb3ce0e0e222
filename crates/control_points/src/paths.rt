//! Laws of the two definitions of a program's points, edges and checks: by the paths of statements in the text, and by the numbers
//! of points. Each is the contract of a function without a body.
ghost use Rattle.pas_program.specs.declared.program.Program.{Program};
ghost use Rattle.control_points.specs.declared.flow.Flow.{Flow};
ghost use Rattle.control_points.specs.Edges.{checks_of, edges_of};
ghost use Rattle.control_points.specs.Marks.{routines_marks};
ghost use Rattle.control_points.specs.Sites.{IsFlowOf};
ghost use Rattle.control_points.specs.Wired as wired;

/// The points with their assertions, the edges and the checks of a program by numbers, which `build` gives, are those by paths in its text.
pub fn paths_say_the_same_as_numbers()
    ensures { (p : Program) → IsFlowOf p (wired.points_of (routines_marks 0 p.routines)) (wired.asserts_of (routines_marks 0 p.routines)) (edges_of p) (checks_of p) }
{}

/// The points with their assertions, the edges and the checks of a flow are those by paths in its program's text.
pub fn flows_are_those_of_paths()
    ensures { (f : Flow) → IsFlowOf f.program f.points f.asserts f.edges f.checks }
{}
