//! The edges and checks of the action that leaves a point.
ghost use Rattle.std.specs.Prelude.{◌≡◌, [], ℕ, suc, ◌+◌, ◌<◌, ◌≤◌, map, length, true, false, OnOk, IfOk, None};
ghost use Rattle.pas_program.specs.Checked.{tables};
ghost use Rattle.control_points.specs.Called.{site_of, sites_of};
ghost use Rattle.control_points.specs.Checking.{assert_checks, selector_checks};
ghost use Rattle.control_points.specs.Edges.{label_point};
ghost use Rattle.control_points.specs.Extents as extents;
ghost use Rattle.control_points.specs.Pieces as pieces;
ghost use Rattle.control_points.specs.Pieces.{IsFollowedBy, judged, line_act, procedure_call, way};
ghost use Rattle.control_points.specs.Scenes.{SitesFit, ReadsFit, WritesFit, call_act};
ghost use Rattle.control_points.specs.Wired.{ActFits};
ghost use Rattle.control_points.specs.declared.edge.Act.TheVariants as acts;

use crate::calls::{CallSite, calls_in_access, calls_in_item};
use crate::copy::{copy_access, copy_actuals, copy_expr, copy_item};
use crate::edge::Act;
use crate::graph::Graph;
use crate::scene::Scene;
use pas_program::{Access, Actual, Arm, Expr, WriteItem};
use sqlite_items::Items;
use std::alloc::AllocError;

/// The control variable of a `for`, the hidden variable that keeps its last value, and its direction.
#[derive(Clone, Copy)]
pub struct Turn {
    pub control: u32,
    pub bound: u32,
    pub down: bool,
}

impl<'a> Scene<'a> {
    ghost use Rattle.control_points.specs.Drawing.{IsDrawn, plan_in};

    /// The checks of the assertions before a statement.
    pub fn assertions(&self, listed: &[u32], here: u32, graph: &mut Graph) -> Result<(), AllocError>
        requires low { self.now.entry < here }
        requires high { here < self.now.exit }
        requires graph { IsDrawn self.now graph.old here }
        ensures graph { OnOk result (IsDrawn self.now graph.new here) }
        ensures exact { OnOk result (IsFollowedBy graph.old graph.new (judged here (assert_checks self.now.program.now.asserts listed.now))) }
    {
        self.judge(here).assertions(listed, &mut graph.checks)
    }

    /// The function calls of an action from a point. Gives the point to which the last one returns.
    pub fn calls(
        &self,
        sites: &[CallSite<'_>],
        from: u32,
        graph: &mut Graph,
    ) -> Result<u32, AllocError>
        requires fits { SitesFit self.now.program.now self.now.routine (sites_of sites.now) }
        requires low { self.now.entry < from }
        requires room { from + length sites.now < self.now.exit }
        requires graph { IsDrawn self.now graph.old from }
        ensures point { IfOk result (λ p. p ≡ from + length sites.now) }
        ensures graph { IfOk result (λ p. IsDrawn self.now graph.new p) }
        ensures exact { OnOk result (IsFollowedBy graph.old graph.new (pieces.calls (plan_in self.now) (sites_of sites.now) from)) }
    {
        let mut here = from;
        for site in sites {
            self.call(site, here, here + 1, graph)?;
            here += 1;
        }
        Ok(here)
    }

    /// A call from a point that returns to the point `back`.
    fn call(
        &self,
        site: &CallSite<'_>,
        from: u32,
        back: u32,
        graph: &mut Graph,
    ) -> Result<(), AllocError>
        requires fits { ActFits self.now.program.now self.now.routine (call_act (site_of site.now)) }
        requires low { self.now.entry < from }
        requires high { from < self.now.exit }
        requires back_low { self.now.entry < back }
        requires back_high { back ≤ self.now.exit }
        requires graph { IsDrawn self.now graph.old from }
        ensures graph { OnOk result (IsDrawn self.now graph.new (from + 1)) }
        ensures exact { OnOk result (IsFollowedBy graph.old graph.new (pieces.call (plan_in self.now) (site_of site.now) from back)) }
    {
        self.judge(from)
            .passing(site.routine, site.actuals, &mut graph.checks)?;
        let act = Act::Call {
            routine: site.routine,
            actuals: copy_actuals(self.alloc, site.actuals)?,
            slot: site.slot,
            at: site.at,
        };
        let entry = self.entry_of(site.routine);
        let exit = self.exit_of(site.routine);
        graph.call(from, act, entry, exit, back)
    }

    /// A way on which nothing is done.
    pub fn skip(&self, here: u32, next: u32, graph: &mut Graph) -> Result<(), AllocError>
        requires low { self.now.entry ≤ here }
        requires high { here < self.now.exit }
        requires next_low { self.now.entry < next }
        requires next_high { next ≤ self.now.exit }
        requires graph { IsDrawn self.now graph.old here }
        ensures graph { OnOk result (IsDrawn self.now graph.new (here + 1)) }
        ensures exact { OnOk result (IsFollowedBy graph.old graph.new (way here acts.Skip next)) }
    {
        self.edge(here, Act::Skip, next, graph)
    }

    /// The selector of a `case`.
    pub fn selector(&self, of: &Expr, here: u32, graph: &mut Graph) -> Result<(), AllocError>
        requires low { self.now.entry < here }
        requires high { here < self.now.exit }
        requires graph { IsDrawn self.now graph.old here }
        ensures graph { OnOk result (IsDrawn self.now graph.new (here + 1)) }
        ensures exact { OnOk result (IsFollowedBy graph.old graph.new (judged here (selector_checks (tables self.now.program.now) of.now))) }
    {
        self.judge(here).selector(of, &mut graph.checks)
    }

    /// The assignment of a scalar.
    pub fn assignment(
        &self,
        to: &Access,
        value: &Expr,
        here: u32,
        next: u32,
        graph: &mut Graph,
    ) -> Result<(), AllocError>
        requires low { self.now.entry < here }
        requires high { here < self.now.exit }
        requires next_low { self.now.entry < next }
        requires next_high { next ≤ self.now.exit }
        requires fits { ActFits self.now.program.now self.now.routine (acts.Assign to.now value.now) }
        requires graph { IsDrawn self.now graph.old here }
        ensures graph { OnOk result (IsDrawn self.now graph.new (here + 1)) }
        ensures exact { OnOk result (IsFollowedBy graph.old graph.new (pieces.assignment (plan_in self.now) to.now value.now here next)) }
    {
        self.judge(here).assignment(to, value, &mut graph.checks)?;
        let to = copy_access(self.alloc, to)?;
        let value = copy_expr(self.alloc, value)?;
        self.edge(here, Act::Assign { to, value }, next, graph)
    }

    /// The assignment of a whole array.
    pub fn copying(
        &self,
        to: &Access,
        from: &Access,
        here: u32,
        next: u32,
        graph: &mut Graph,
    ) -> Result<(), AllocError>
        requires low { self.now.entry < here }
        requires high { here < self.now.exit }
        requires next_low { self.now.entry < next }
        requires next_high { next ≤ self.now.exit }
        requires fits { ActFits self.now.program.now self.now.routine (acts.Copy to.now from.now) }
        requires graph { IsDrawn self.now graph.old here }
        ensures graph { OnOk result (IsDrawn self.now graph.new (here + 1)) }
        ensures exact { OnOk result (IsFollowedBy graph.old graph.new (pieces.copying (plan_in self.now) to.now from.now here next)) }
    {
        self.judge(here).copying(to, from, &mut graph.checks)?;
        let to = copy_access(self.alloc, to)?;
        let from = copy_access(self.alloc, from)?;
        self.edge(here, Act::Copy { to, from }, next, graph)
    }

    /// The call of a procedure.
    pub fn procedure(
        &self,
        routine: u32,
        actuals: &[Actual],
        at: u32,
        here: u32,
        next: u32,
        graph: &mut Graph,
    ) -> Result<(), AllocError>
        requires low { self.now.entry < here }
        requires high { here < self.now.exit }
        requires next_low { self.now.entry < next }
        requires next_high { next ≤ self.now.exit }
        requires fits { ActFits self.now.program.now self.now.routine (acts.Call routine actuals.now None at) }
        requires graph { IsDrawn self.now graph.old here }
        ensures graph { OnOk result (IsDrawn self.now graph.new (here + 1)) }
        ensures exact { OnOk result (IsFollowedBy graph.old graph.new (pieces.call (plan_in self.now) (procedure_call routine actuals.now at) here next)) }
    {
        let site = CallSite {
            routine,
            actuals,
            slot: None,
            at,
        };
        self.call(&site, here, next, graph)
    }

    /// A `goto`.
    pub fn goto(
        &self,
        routine: u32,
        label: u32,
        here: u32,
        graph: &mut Graph,
    ) -> Result<(), AllocError>
        requires low { self.now.entry < here }
        requires high { here < self.now.exit }
        requires fits { ActFits self.now.program.now self.now.routine (acts.Goto routine) }
        requires graph { IsDrawn self.now graph.old here }
        ensures graph { OnOk result (IsDrawn self.now graph.new (here + 1)) }
        ensures exact { OnOk result (IsFollowedBy graph.old graph.new (way here (acts.Goto routine) (label_point self.now.numbering.now.marks self.now.numbering.now.entries routine label))) }
    {
        graph.edge(here, Act::Goto { routine }, self.label(routine, label))
    }

    /// A condition from a point, with its two ways.
    pub fn condition(
        &self,
        cond: &Expr,
        here: u32,
        held: u32,
        failed: u32,
        graph: &mut Graph,
    ) -> Result<(), AllocError>
        requires low { self.now.entry < here }
        requires high { here < self.now.exit }
        requires held_low { self.now.entry < held }
        requires held_high { held ≤ self.now.exit }
        requires failed_low { self.now.entry < failed }
        requires failed_high { failed ≤ self.now.exit }
        requires held_fits { ActFits self.now.program.now self.now.routine (acts.Test cond.now true) }
        requires failed_fits { ActFits self.now.program.now self.now.routine (acts.Test cond.now false) }
        requires graph { IsDrawn self.now graph.old here }
        ensures graph { OnOk result (IsDrawn self.now graph.new (here + 1)) }
        ensures exact { OnOk result (IsFollowedBy graph.old graph.new (pieces.condition (plan_in self.now) cond.now here held failed)) }
    {
        self.judge(here).expr(cond, &mut graph.checks)?;
        self.test(cond, true, here, held, graph)?;
        self.test(cond, false, here, failed, graph)
    }

    /// One way of a condition.
    fn test(
        &self,
        cond: &Expr,
        wanted: bool,
        here: u32,
        next: u32,
        graph: &mut Graph,
    ) -> Result<(), AllocError>
        requires low { self.now.entry < here }
        requires high { here < self.now.exit }
        requires next_low { self.now.entry < next }
        requires next_high { next ≤ self.now.exit }
        requires fits { ActFits self.now.program.now self.now.routine (acts.Test cond.now wanted) }
        requires graph { IsDrawn self.now graph.old here }
        ensures graph { OnOk result (IsDrawn self.now graph.new here) }
        ensures exact { OnOk result (IsFollowedBy graph.old graph.new (way here (acts.Test cond.now wanted) next)) }
    {
        let cond = copy_expr(self.alloc, cond)?;
        self.edge(here, Act::Test { cond, wanted }, next, graph)
    }

    /// The ways into the statement of a `for` and past it.
    pub fn bounds(
        &self,
        turn: Turn,
        first: &Expr,
        last: &Expr,
        here: u32,
        next: u32,
        graph: &mut Graph,
    ) -> Result<(), AllocError>
        requires low { self.now.entry < here }
        requires high { here < self.now.exit }
        requires inside { here + 1 ≤ self.now.exit }
        requires next_low { self.now.entry < next }
        requires next_high { next ≤ self.now.exit }
        requires enter { ActFits self.now.program.now self.now.routine (acts.Enter turn.control turn.bound first.now turn.down last.now) }
        requires bypass { ActFits self.now.program.now self.now.routine (acts.Bypass turn.control turn.bound first.now turn.down last.now) }
        requires graph { IsDrawn self.now graph.old here }
        ensures graph { OnOk result (IsDrawn self.now graph.new (here + 1)) }
        ensures exact { OnOk result (IsFollowedBy graph.old graph.new (pieces.bounds (plan_in self.now) turn.control turn.bound first.now turn.down last.now here next)) }
    {
        self.judge(here)
            .bounds(turn.control, first, last, &mut graph.checks)?;
        let enter = Act::Enter {
            control: turn.control,
            bound: turn.bound,
            first: copy_expr(self.alloc, first)?,
            down: turn.down,
            last: copy_expr(self.alloc, last)?,
        };
        self.edge(here, enter, here + 1, graph)?;
        let bypass = Act::Bypass {
            control: turn.control,
            bound: turn.bound,
            first: copy_expr(self.alloc, first)?,
            down: turn.down,
            last: copy_expr(self.alloc, last)?,
        };
        self.edge(here, bypass, next, graph)
    }

    /// The ways from the end of a turn of a `for`: to the next turn, and out of it.
    pub fn turns(
        &self,
        turn: Turn,
        step: u32,
        inside: u32,
        next: u32,
        graph: &mut Graph,
    ) -> Result<(), AllocError>
        requires low { self.now.entry < step }
        requires high { step < self.now.exit }
        requires inside_low { self.now.entry < inside }
        requires inside_high { inside ≤ self.now.exit }
        requires next_low { self.now.entry < next }
        requires next_high { next ≤ self.now.exit }
        requires again { ActFits self.now.program.now self.now.routine (acts.Next turn.control turn.bound turn.down) }
        requires finish { ActFits self.now.program.now self.now.routine (acts.Finish turn.control turn.bound turn.down) }
        requires graph { IsDrawn self.now graph.old step }
        ensures graph { OnOk result (IsDrawn self.now graph.new (step + 1)) }
        ensures exact { OnOk result (IsFollowedBy graph.old graph.new (pieces.turns turn.control turn.bound turn.down step inside next)) }
    {
        let Turn {
            control,
            bound,
            down,
        } = turn;
        self.edge(
            step,
            Act::Next {
                control,
                bound,
                down,
            },
            inside,
            graph,
        )?;
        self.edge(
            step,
            Act::Finish {
                control,
                bound,
                down,
            },
            next,
            graph,
        )
    }

    /// The way on from a `case` without arms, for no constant, so that an edge leaves its point. The grammar gives each an arm.
    pub fn no_arms(
        &self,
        arms: &[Arm],
        of: &Expr,
        here: u32,
        next: u32,
        graph: &mut Graph,
    ) -> Result<(), AllocError>
        requires low { self.now.entry < here }
        requires high { here < self.now.exit }
        requires next_low { self.now.entry < next }
        requires next_high { next ≤ self.now.exit }
        requires fits { ActFits self.now.program.now self.now.routine (acts.Arm of.now []) }
        requires graph { IsDrawn self.now graph.old (here + 1) }
        ensures graph { OnOk result (IsDrawn self.now graph.new (here + 1)) }
        ensures exact { OnOk result (IsFollowedBy graph.old graph.new (pieces.no_arms arms.now of.now here next)) }
    {
        if !arms.is_empty() {
            return Ok(());
        }
        let of = copy_expr(self.alloc, of)?;
        let consts = Items::new(self.alloc);
        self.edge(here, Act::Arm { of, consts }, next, graph)
    }

    /// The way to an arm of a `case`.
    pub fn arm(
        &self,
        of: &Expr,
        consts: &[i32],
        here: u32,
        next: u32,
        graph: &mut Graph,
    ) -> Result<(), AllocError>
        requires low { self.now.entry < here }
        requires high { here < self.now.exit }
        requires next_low { self.now.entry < next }
        requires next_high { next ≤ self.now.exit }
        requires fits { ActFits self.now.program.now self.now.routine (acts.Arm of.now consts.now) }
        requires graph { IsDrawn self.now graph.old next }
        ensures graph { OnOk result (IsDrawn self.now graph.new next) }
        ensures exact { OnOk result (IsFollowedBy graph.old graph.new (way here (acts.Arm of.now consts.now) next)) }
    {
        let of = copy_expr(self.alloc, of)?;
        let consts = Items::from_slice(self.alloc, consts)?;
        self.edge(here, Act::Arm { of, consts }, next, graph)
    }

    /// The parameters of `read` from a point on, each an action of its own.
    pub fn reads(
        &self,
        to: &[Access],
        line: bool,
        from: u32,
        next: u32,
        graph: &mut Graph,
    ) -> Result<(), AllocError>
        requires low { self.now.entry < from }
        requires room { from + extents.total (map extents.read_points to.now) < self.now.exit }
        requires next_low { self.now.entry < next }
        requires next_high { next ≤ self.now.exit }
        requires fits { ReadsFit self.now.program.now self.now.routine to.now }
        requires graph { IsDrawn self.now graph.old from }
        ensures graph { OnOk result (IsDrawn self.now graph.new (from + 1 + extents.total (map extents.read_points to.now))) }
        ensures exact { OnOk result (IsFollowedBy graph.old graph.new (pieces.reads (plan_in self.now) to.now (line_act line acts.DropLine) from next)) }
    {
        let mut here = from;
        for access in to {
            here = self.read(access, here, graph)?;
        }
        let end = if line { Act::DropLine } else { Act::Skip };
        self.edge(here, end, next, graph)
    }

    /// Gives the point after the parameter.
    fn read(&self, access: &Access, from: u32, graph: &mut Graph) -> Result<u32, AllocError>
        requires low { self.now.entry < from }
        requires room { from + extents.read_points access.now < self.now.exit }
        requires fits { ActFits self.now.program.now self.now.routine (acts.Read access.now) }
        requires graph { IsDrawn self.now graph.old from }
        ensures point { IfOk result (λ p. p ≡ from + extents.read_points access.now) }
        ensures graph { IfOk result (λ p. IsDrawn self.now graph.new p) }
        ensures exact { OnOk result (IsFollowedBy graph.old graph.new (pieces.read (plan_in self.now) access.now from)) }
    {
        let mut sites = Vec::new(self.alloc);
        calls_in_access(access, &mut sites)?;
        let here = self.calls(sites.as_slice(), from, graph)?;
        self.judge(here).read(access, &mut graph.checks)?;
        let to = copy_access(self.alloc, access)?;
        self.edge(here, Act::Read { to }, here + 1, graph)?;
        Ok(here + 1)
    }

    /// The parameters of `write` from a point on, each an action of its own.
    pub fn writes(
        &self,
        items: &[WriteItem],
        line: bool,
        from: u32,
        next: u32,
        graph: &mut Graph,
    ) -> Result<(), AllocError>
        requires low { self.now.entry < from }
        requires room { from + extents.total (map extents.write_points items.now) < self.now.exit }
        requires next_low { self.now.entry < next }
        requires next_high { next ≤ self.now.exit }
        requires fits { WritesFit self.now.program.now self.now.routine items.now }
        requires graph { IsDrawn self.now graph.old from }
        ensures graph { OnOk result (IsDrawn self.now graph.new (from + 1 + extents.total (map extents.write_points items.now))) }
        ensures exact { OnOk result (IsFollowedBy graph.old graph.new (pieces.writes (plan_in self.now) items.now (line_act line acts.EndLine) from next)) }
    {
        let mut here = from;
        for item in items {
            here = self.write(item, here, graph)?;
        }
        let end = if line { Act::EndLine } else { Act::Skip };
        self.edge(here, end, next, graph)
    }

    /// Gives the point after the parameter.
    fn write(&self, item: &WriteItem, from: u32, graph: &mut Graph) -> Result<u32, AllocError>
        requires low { self.now.entry < from }
        requires room { from + extents.write_points item.now < self.now.exit }
        requires fits { ActFits self.now.program.now self.now.routine (acts.Write item.now) }
        requires graph { IsDrawn self.now graph.old from }
        ensures point { IfOk result (λ p. p ≡ from + extents.write_points item.now) }
        ensures graph { IfOk result (λ p. IsDrawn self.now graph.new p) }
        ensures exact { OnOk result (IsFollowedBy graph.old graph.new (pieces.write (plan_in self.now) item.now from)) }
    {
        let mut sites = Vec::new(self.alloc);
        calls_in_item(item, &mut sites)?;
        let here = self.calls(sites.as_slice(), from, graph)?;
        self.judge(here).item(item, &mut graph.checks)?;
        let copy = copy_item(self.alloc, item)?;
        self.edge(here, Act::Write { item: copy }, here + 1, graph)?;
        Ok(here + 1)
    }
}
