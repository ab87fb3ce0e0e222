ghost use Rattle.std.specs.Prelude.{◌≡◌, ◌<◌, ◌^◌, length, slice_get, suc};
ghost use Rattle.control_points.specs.Chart.{leaving, arriving};
ghost use Rattle.control_points.specs.Exact.{IsExact};
ghost use Rattle.control_points.specs.Fits.{PointsFit, EdgesFit, CallsReturn, ChecksFit, AssertsFit, EdgesListed};
ghost use Rattle.control_points.specs.Leading.{EntriesFit, EdgesLead, ExitsReturn};

use crate::check::Check;
use crate::edge::Edge;
use crate::point::Point;
use pas_program::Program;
use sqlite_items::Items;
use std::ops::Range;

/// A program with its points, edges and checks.
#[derive(Debug, Drop)]
pub struct Flow {
    pub program: Program,
    pub points: Items<Point>,
    pub edges: Items<Edge>,
    /// In the order of their points; within a point assertions come first, and then what its action may get wrong, in order
    /// of evaluation.
    pub checks: Items<Check>,
    /// For each point the numbers of its assertions.
    pub asserts: Items<Items<u32>>,
    /// For each point the numbers of the edges that leave it.
    pub outgoing: Items<Items<u32>>,
    /// For each point the numbers of the edges that lead to it.
    pub incoming: Items<Items<u32>>,
    pub ghost points_fit: { PointsFit program points },
    pub ghost edges_fit: { EdgesFit program points edges },
    pub ghost calls_return: { CallsReturn points edges },
    pub ghost checks_fit: { ChecksFit points checks },
    pub ghost asserts_fit: { AssertsFit program points asserts },
    pub ghost entries_fit: { EntriesFit program points },
    pub ghost edges_lead: { EdgesLead points edges },
    pub ghost exits_return: { ExitsReturn points edges },
    pub ghost exact: { IsExact program points asserts edges checks },
    pub ghost edges_listed: { EdgesListed points edges outgoing incoming },
    pub ghost points_few: { length points < 2 ^ 32 },
    pub ghost edges_few: { length edges < 2 ^ 32 },
}

/// Each takes constant time, but for `checks_at`.
impl Flow {
    ghost use Rattle.control_points.specs.Judgements.{first_check};

    pub fn program(&self) -> &Program
        ensures { result.now ≡ self.now.program }
    {
        &self.program
    }

    pub fn points(&self) -> &[Point]
        ensures { result.now ≡ self.now.points }
    {
        self.points.as_slice()
    }

    pub fn edges(&self) -> &[Edge]
        ensures { result.now ≡ self.now.edges }
    {
        self.edges.as_slice()
    }

    pub fn checks(&self) -> &[Check]
        ensures { result.now ≡ self.now.checks }
    {
        self.checks.as_slice()
    }

    /// The numbers of the checks of the point. The time is logarithmic in the number of all checks.
    pub fn checks_at(&self, point: u32) -> Range<usize>
        ensures start { result.start ≡ first_check self.now.checks point }
        ensures end { result.end ≡ first_check self.now.checks (suc point) }
    {
        let start = self.checks_below(u64::from(point));
        let end = self.checks_below(u64::from(point) + 1);
        start..end
    }

    /// How many checks are of lower points.
    fn checks_below(&self, point: u64) -> usize
        ensures { result ≡ first_check self.now.checks point }
    {
        self.checks()
            .partition_point(|c| u64::from(c.point) < point)
    }

    /// The numbers of the assertions that belong to the point, in the order of their statement's list.
    pub fn asserts_at(&self, point: u32) -> &[u32]
        requires { point < length self.now.points }
        ensures { slice_get self.now.asserts point ≡ Some result.now }
    {
        self.asserts.as_slice()[point as usize].as_slice()
    }

    /// The numbers of the edges that leave the point, in rising order.
    pub fn outgoing(&self, point: u32) -> &[u32]
        requires { point < length self.now.points }
        ensures { result.now ≡ leaving self.now.edges point }
    {
        self.outgoing.as_slice()[point as usize].as_slice()
    }

    /// The numbers of the edges that lead to the point, in rising order.
    pub fn incoming(&self, point: u32) -> &[u32]
        requires { point < length self.now.points }
        ensures { result.now ≡ arriving self.now.edges point }
    {
        self.incoming.as_slice()[point as usize].as_slice()
    }
}
