//! The second walk over a program: its edges and checks, between the points that the first walk has numbered.
ghost use Rattle.std.specs.Prelude.{◌≡◌, ℕ, suc, ◌+◌, ◌-◌, ◌<◌, ◌≤◌, [], map, length, true, false, OnOk, IfOk, slice_index, Some, None, if◌then◌else◌};
ghost use Rattle.std.specs.List.{list_all};
ghost use Rattle.std.specs.Option.{option_map};
ghost use Rattle.pas_program.specs.Checked.{numbers_in, scope_in, tables};
ghost use Rattle.pas_program.specs.Each.{all_true, true_if_some, arm_of, each_statement};
ghost use Rattle.pas_program.specs.Scopes.{is_outermost};
ghost use Rattle.pas_program.specs.Typed.{statement_types_fit, arm_types, hosted};
ghost use Rattle.pas_program.specs.Types.{in_host};
ghost use Rattle.pas_program.specs.declared.statement.Body.TheViews.{out-Body};
ghost use Rattle.control_points.specs.Called.{own_calls};
ghost use Rattle.control_points.specs.Calls.{expr_calls};
ghost use Rattle.control_points.specs.Checking.{assert_checks};
ghost use Rattle.control_points.specs.Edges.{arms_from, checks_of, edges_of, in_order, inner_piece, laid_arm, laid_body, laid_statement, loop_piece, own_piece, routine_piece, second_piece, statement_piece, until_piece};
ghost use Rattle.control_points.specs.Extents as extents;
ghost use Rattle.control_points.specs.Fits.{ChecksFit};
ghost use Rattle.control_points.specs.Marks.{routines_marks, second_or, starts};
ghost use Rattle.control_points.specs.Pieces as pieces;
ghost use Rattle.control_points.specs.Pieces.{IsFollowedBy, both, judged};
ghost use Rattle.control_points.specs.Scenes.{LabelsLead, LabelsAre, SitesFit, ArmsFit};
ghost use Rattle.control_points.specs.Wired.{ActFits, IsWired, points_of};
ghost use Rattle.control_points.specs.declared.edge.Act.TheVariants as acts;

use crate::actions::Turn;
use crate::calls::{calls_in_expr, own_calls};
use crate::edge::Act;
use crate::graph::Graph;
use crate::labels::Labels;
use crate::numbering::Numbering;
use crate::scene::Scene;
use pas_program::{Arm, Body, Expr, Program, Routine, Statement};
use sqlite_items::Boxed;
use std::alloc::{AllocError, Global};

/// Where a statement stands: its place in the order of all statements, the point before it, and the point that follows it.
#[derive(Clone, Copy)]
pub struct Stand {
    pub order: usize,
    pub here: u32,
    pub next: u32,
}

/// The point that follows a statement: for the last one `next`, and for another one the point behind it.
fn choose(last: bool, next: u32, after: u32) -> u32
    ensures value { result ≡ (if last then next else after) }
    ensures low { (n : ℕ) → n < next → n < after → n < result }
    ensures high { (n : ℕ) → next ≤ n → after ≤ n → result ≤ n }
{
    if last { next } else { after }
}

/// The edges and checks of a program.
pub fn wire(
    alloc: Global,
    program: &Program,
    numbering: &Numbering,
    labels: &[Labels],
) -> Result<Graph, AllocError>
    requires marks { numbering.now.marks ≡ routines_marks 0 program.now.routines }
    requires sizes { numbering.now.sizes ≡ extents.routines_sizes program.now.routines }
    requires entries { numbering.now.entries ≡ starts 0 0 program.now.routines }
    requires tables { length labels.now ≡ length program.now.routines }
    requires labelled { LabelsAre numbering.now.marks numbering.now.entries labels.now }
    requires jumps { LabelsLead (points_of numbering.now.marks) labels.now }
    ensures wired { IfOk result (λ g. IsWired program.now (points_of numbering.now.marks) g.edges) }
    ensures edges { IfOk result (λ g. g.edges ≡ edges_of program.now) }
    ensures checks { IfOk result (λ g. g.checks ≡ checks_of program.now) }
    ensures judged { IfOk result (λ g. ChecksFit (points_of numbering.now.marks) g.checks) }
{
    let mut graph = Graph::new(alloc);
    let mut order = 0;
    for (r, routine) in program.routines.as_slice().iter().enumerate() {
        let entry = numbering.entries.as_slice()[r];
        let exit = numbering.entries.as_slice()[r + 1] - 1;
        let scene = Scene {
            alloc,
            program,
            numbering,
            labels,
            routine: r as u32,
            entry,
            exit,
        };
        order = scene.block(routine, order, &mut graph)?;
    }
    Ok(graph)
}

impl<'a> Scene<'a> {
    ghost use Rattle.control_points.specs.Drawing.{IsDrawn, SizesAt, StandsAt, plan_in};

    /// The statement part of the routine. Gives the order of the first statement behind it.
    pub fn block(
        &self,
        routine: &Routine,
        order: usize,
        graph: &mut Graph,
    ) -> Result<usize, AllocError>
        requires outermost { is_outermost routine.now.body ≡ true }
        requires numbers { each_statement (numbers_in self.now.program.now) routine.now.body ≡ true }
        requires types { statement_types_fit (tables self.now.program.now) routine.now.body ≡ true }
        requires scopes { each_statement (scope_in self.now.program.now self.now.routine) routine.now.body ≡ true }
        requires size { self.now.entry + extents.routine_points routine.now + 1 ≡ self.now.exit }
        requires sizes { SizesAt self.now order (extents.routine_sizes routine.now) }
        requires graph { IsDrawn self.now graph.old self.now.entry }
        ensures order { IfOk result (λ k. k ≡ order + length (extents.routine_sizes routine.now)) }
        ensures graph { OnOk result (IsDrawn self.now graph.new (self.now.exit + 1)) }
        ensures exact { OnOk result (IsFollowedBy graph.old graph.new (routine_piece (plan_in self.now) self.now.routine routine.now)) }
    {
        match &routine.body.body {
            Body::Begin { body, end } => {
                let inside = Stand {
                    order,
                    here: self.entry + 1,
                    next: self.exit,
                };
                self.edge(self.entry, Act::Skip, self.entry + 1, graph)?;
                let order = self.sequence(body.as_slice(), inside, graph)?;
                self.judge(self.exit)
                    .outcome(routine.result, *end, &mut graph.checks)?;
                Ok(order)
            }
            _ => unreachable!(),
        }
    }

    /// Statements one after another. Gives the order of the statement behind them.
    #[cycle(wire)]
    fn sequence(
        &self,
        body: &[Statement],
        stand: Stand,
        graph: &mut Graph,
    ) -> Result<usize, AllocError>
        requires numbers { all_true (map (each_statement (numbers_in self.now.program.now)) body.now) ≡ true }
        requires types { all_true (map (statement_types_fit (tables self.now.program.now)) body.now) ≡ true }
        requires scopes { all_true (map (each_statement (scope_in self.now.program.now self.now.routine)) body.now) ≡ true }
        requires stands { StandsAt self.now stand (extents.statements_extent body.now).points }
        requires sizes { SizesAt self.now stand.order (extents.statements_extent body.now).sizes }
        requires graph { IsDrawn self.now graph.old stand.here }
        ensures order { IfOk result (λ k. k ≡ stand.order + length (extents.statements_extent body.now).sizes) }
        ensures graph { OnOk result (IsDrawn self.now graph.new (stand.here + (extents.statements_extent body.now).points)) }
        ensures exact { OnOk result (IsFollowedBy graph.old graph.new (in_order (plan_in self.now) (map (laid_statement (plan_in self.now)) body.now) stand.here stand.next)) }
    {
        let mut order = stand.order;
        let mut here = stand.here;
        for (k, s) in body.iter().enumerate() {
            let after = here + self.size(order);
            let next = choose(k + 1 == body.len(), stand.next, after);
            order = self.statement(s, Stand { order, here, next }, graph)?;
            here = after;
        }
        Ok(order)
    }

    /// Gives the order of the statement that follows in the text.
    #[cycle(wire)]
    fn statement(&self, s: &Statement, stand: Stand, graph: &mut Graph) -> Result<usize, AllocError>
        requires numbers { each_statement (numbers_in self.now.program.now) s.now ≡ true }
        requires types { statement_types_fit (tables self.now.program.now) s.now ≡ true }
        requires scopes { each_statement (scope_in self.now.program.now self.now.routine) s.now ≡ true }
        requires stands { StandsAt self.now stand (extents.statement_extent s.now).points }
        requires sizes { SizesAt self.now stand.order (extents.statement_extent s.now).sizes }
        requires graph { IsDrawn self.now graph.old stand.here }
        ensures order { IfOk result (λ k. k ≡ stand.order + length (extents.statement_extent s.now).sizes) }
        ensures graph { OnOk result (IsDrawn self.now graph.new (stand.here + (extents.statement_extent s.now).points)) }
        ensures exact { OnOk result (IsFollowedBy graph.old graph.new (statement_piece (plan_in self.now) s.now stand.here stand.next)) }
    {
        let here = self.begin(s, stand, graph)?;
        self.act(s, here, stand, graph)?;
        self.inner(s, here, stand, graph)
    }

    /// The assertions before a statement, and the calls of its action. Gives the point that its action leaves.
    fn begin(&self, s: &Statement, stand: Stand, graph: &mut Graph) -> Result<u32, AllocError>
        requires numbers { each_statement (numbers_in self.now.program.now) s.now ≡ true }
        requires types { statement_types_fit (tables self.now.program.now) s.now ≡ true }
        requires scopes { each_statement (scope_in self.now.program.now self.now.routine) s.now ≡ true }
        requires stands { StandsAt self.now stand (extents.statement_extent s.now).points }
        requires graph { IsDrawn self.now graph.old stand.here }
        ensures here { IfOk result (λ p. p ≡ stand.here + length (own_calls s.now.body)) }
        ensures graph { IfOk result (λ p. IsDrawn self.now graph.new p) }
        ensures exact { OnOk result (IsFollowedBy graph.old graph.new (both (judged stand.here (assert_checks self.now.program.now.asserts s.now.asserts)) (pieces.calls (plan_in self.now) (own_calls s.now.body) stand.here))) }
    {
        self.assertions(s.asserts.as_slice(), stand.here, graph)?;
        let sites = own_calls(self.alloc, &s.body)?;
        self.calls(sites.as_slice(), stand.here, graph)
    }

    /// The checks and edges of the action that leaves the point `here`, to which the last of its calls returned. The
    /// parameters of `read` and `write` are actions of their own.
    fn act(
        &self,
        s: &Statement,
        here: u32,
        stand: Stand,
        graph: &mut Graph,
    ) -> Result<(), AllocError>
        requires numbers { each_statement (numbers_in self.now.program.now) s.now ≡ true }
        requires types { statement_types_fit (tables self.now.program.now) s.now ≡ true }
        requires scopes { each_statement (scope_in self.now.program.now self.now.routine) s.now ≡ true }
        requires stands { StandsAt self.now stand (extents.statement_extent s.now).points }
        requires sizes { SizesAt self.now stand.order (extents.statement_extent s.now).sizes }
        requires here { here ≡ stand.here + length (own_calls s.now.body) }
        requires graph { IsDrawn self.now graph.old here }
        ensures graph { OnOk result (IsDrawn self.now graph.new (here + 1 + extents.action_points s.now.body)) }
        ensures exact { OnOk result (IsFollowedBy graph.old graph.new (own_piece (plan_in self.now) (laid_body (plan_in self.now) (out-Body s.now.body)) here stand.next)) }
    {
        match &s.body {
            Body::Empty => self.skip(here, stand.next, graph),
            Body::Assign { to, value } => self.assignment(to, value, here, stand.next, graph),
            Body::Copy { to, from } => self.copying(to, from, here, stand.next, graph),
            Body::Call {
                routine,
                actuals,
                at,
            } => self.procedure(*routine, actuals.as_slice(), *at, here, stand.next, graph),
            Body::Goto { routine, label } => self.goto(*routine, *label, here, graph),
            Body::Begin { .. } => self.skip(here, here + 1, graph),
            Body::If { cond, no, .. } => {
                let failed = match no {
                    None => stand.next,
                    Some(_) => here + 1 + self.size(stand.order + 1),
                };
                self.condition(cond, here, here + 1, failed, graph)
            }
            Body::Case { of, arms } => {
                self.selector(of, here, graph)?;
                self.no_arms(arms.as_slice(), of, here, stand.next, graph)
            }
            Body::While { cond, .. } => { self.condition(cond, here, here + 1, stand.next, graph) }
            Body::Repeat { .. } => self.skip(here, here + 1, graph),
            Body::For {
                control,
                bound,
                first,
                down,
                last,
                ..
            } => {
                let turn = Turn {
                    control: *control,
                    bound: *bound,
                    down: *down,
                };
                self.bounds(turn, first, last, here, stand.next, graph)
            }
            Body::Read { to, line } => self.reads(to.as_slice(), *line, here, stand.next, graph),
            Body::Write { items, line } => {
                self.writes(items.as_slice(), *line, here, stand.next, graph)
            }
        }
    }

    /// What stands behind a statement's own action, which leaves `here`. Gives the order of the statement that follows in
    /// the text.
    #[cycle(wire)]
    fn inner(
        &self,
        s: &Statement,
        here: u32,
        stand: Stand,
        graph: &mut Graph,
    ) -> Result<usize, AllocError>
        requires numbers { each_statement (numbers_in self.now.program.now) s.now ≡ true }
        requires types { statement_types_fit (tables self.now.program.now) s.now ≡ true }
        requires scopes { each_statement (scope_in self.now.program.now self.now.routine) s.now ≡ true }
        requires stands { StandsAt self.now stand (extents.statement_extent s.now).points }
        requires sizes { SizesAt self.now stand.order (extents.statement_extent s.now).sizes }
        requires here { here ≡ stand.here + length (own_calls s.now.body) }
        requires graph { IsDrawn self.now graph.old (here + 1 + extents.action_points s.now.body) }
        ensures order { IfOk result (λ k. k ≡ stand.order + length (extents.statement_extent s.now).sizes) }
        ensures graph { OnOk result (IsDrawn self.now graph.new (stand.here + (extents.statement_extent s.now).points)) }
        ensures exact { OnOk result (IsFollowedBy graph.old graph.new (inner_piece (plan_in self.now) (laid_body (plan_in self.now) (out-Body s.now.body)) here stand.here stand.next)) }
    {
        let order = stand.order + 1;
        let first = here + 1;
        match &s.body {
            Body::Empty => Ok(order),
            Body::Assign { .. } => Ok(order),
            Body::Copy { .. } => Ok(order),
            Body::Call { .. } => Ok(order),
            Body::Goto { .. } => Ok(order),
            Body::Read { .. } => Ok(order),
            Body::Write { .. } => Ok(order),
            Body::Begin { body, .. } => {
                let inside = Stand {
                    order,
                    here: first,
                    next: stand.next,
                };
                self.sequence(body.as_slice(), inside, graph)
            }
            Body::If { yes, no, .. } => {
                let second = first + self.size(order);
                let inside = Stand {
                    order,
                    here: first,
                    next: stand.next,
                };
                let order = self.statement(yes.get(), inside, graph)?;
                let inside = Stand {
                    order,
                    here: second,
                    next: stand.next,
                };
                self.other(no, inside, graph)
            }
            Body::Case { of, arms } => {
                let inside = Stand {
                    order,
                    here: first,
                    next: stand.next,
                };
                self.arms(arms.as_slice(), of, here, inside, graph)
            }
            Body::While { body, .. } => {
                let inside = Stand {
                    order,
                    here: first,
                    next: stand.here,
                };
                self.statement(body.get(), inside, graph)
            }
            Body::Repeat { body, cond, .. } => self.repeat(body.as_slice(), cond, stand, graph),
            Body::For {
                control,
                bound,
                down,
                body,
                ..
            } => {
                let turn = Turn {
                    control: *control,
                    bound: *bound,
                    down: *down,
                };
                self.for_loop(turn, body.get(), here, stand, graph)
            }
        }
    }

    /// The second branch of an `if`, where there is one.
    #[cycle(wire)]
    fn other(
        &self,
        no: &Option<Boxed<Statement>>,
        stand: Stand,
        graph: &mut Graph,
    ) -> Result<usize, AllocError>
        requires numbers { true_if_some (option_map (each_statement (numbers_in self.now.program.now)) no.now) ≡ true }
        requires types { true_if_some (option_map (statement_types_fit (tables self.now.program.now)) no.now) ≡ true }
        requires scopes { true_if_some (option_map (each_statement (scope_in self.now.program.now self.now.routine)) no.now) ≡ true }
        requires stands { StandsAt self.now stand (second_or (extents.extent_of 0) (option_map extents.statement_extent no.now)).points }
        requires sizes { SizesAt self.now stand.order (second_or (extents.extent_of 0) (option_map extents.statement_extent no.now)).sizes }
        requires graph { IsDrawn self.now graph.old stand.here }
        ensures order { IfOk result (λ k. k ≡ stand.order + length (second_or (extents.extent_of 0) (option_map extents.statement_extent no.now)).sizes) }
        ensures graph { OnOk result (IsDrawn self.now graph.new (stand.here + (second_or (extents.extent_of 0) (option_map extents.statement_extent no.now)).points)) }
        ensures exact { OnOk result (IsFollowedBy graph.old graph.new (second_piece (plan_in self.now) (option_map (laid_statement (plan_in self.now)) no.now) stand.here stand.next)) }
    {
        match no {
            None => Ok(stand.order),
            Some(no) => self.statement(no.get(), stand, graph),
        }
    }

    /// The arms of a `case`, whose selector is evaluated at the point `from`.
    #[cycle(wire)]
    fn arms(
        &self,
        arms: &[Arm],
        of: &Expr,
        from: u32,
        inside: Stand,
        graph: &mut Graph,
    ) -> Result<usize, AllocError>
        requires numbers { all_true (map (λ a. a.0) (map (arm_of (numbers_in self.now.program.now)) arms.now)) ≡ true }
        requires types { all_true (map (λ a. a.0) (map (arm_types (tables self.now.program.now)) arms.now)) ≡ true }
        requires scopes { all_true (map (λ a. a.0) (map (arm_of (scope_in self.now.program.now self.now.routine)) arms.now)) ≡ true }
        requires fits { ArmsFit self.now.program.now self.now.routine of.now arms.now }
        requires low { self.now.entry < from }
        requires here { inside.here ≡ from + 1 }
        requires stands { StandsAt self.now inside (extents.arms_extent arms.now).points }
        requires sizes { SizesAt self.now inside.order (extents.arms_extent arms.now).sizes }
        requires graph { IsDrawn self.now graph.old inside.here }
        ensures order { IfOk result (λ k. k ≡ inside.order + length (extents.arms_extent arms.now).sizes) }
        ensures graph { OnOk result (IsDrawn self.now graph.new (inside.here + (extents.arms_extent arms.now).points)) }
        ensures exact { OnOk result (IsFollowedBy graph.old graph.new (arms_from (plan_in self.now) of.now from (map (laid_arm (plan_in self.now)) arms.now) inside.here inside.next)) }
    {
        let mut order = inside.order;
        let mut here = inside.here;
        let next = inside.next;
        for arm in arms {
            let after = here + self.size(order);
            self.arm(of, arm.consts.as_slice(), from, here, graph)?;
            order = self.statement(&arm.body, Stand { order, here, next }, graph)?;
            here = after;
        }
        Ok(order)
    }

    /// The statements of a `repeat`, and then its condition, which has a point of its own.
    #[cycle(wire)]
    fn repeat(
        &self,
        body: &[Statement],
        cond: &Expr,
        stand: Stand,
        graph: &mut Graph,
    ) -> Result<usize, AllocError>
        requires fits { SitesFit self.now.program.now self.now.routine (expr_calls cond.now) }
        requires held_fits { ActFits self.now.program.now self.now.routine (acts.Test cond.now true) }
        requires failed_fits { ActFits self.now.program.now self.now.routine (acts.Test cond.now false) }
        requires numbers { all_true (map (each_statement (numbers_in self.now.program.now)) body.now) ≡ true }
        requires types { all_true (map (statement_types_fit (tables self.now.program.now)) body.now) ≡ true }
        requires scopes { all_true (map (each_statement (scope_in self.now.program.now self.now.routine)) body.now) ≡ true }
        requires stands { StandsAt self.now stand (extents.with_before (extents.both (extents.statements_extent body.now) (extents.extent_of (suc (length (expr_calls cond.now)))))).points }
        requires sizes { SizesAt self.now stand.order (extents.with_before (extents.both (extents.statements_extent body.now) (extents.extent_of (suc (length (expr_calls cond.now)))))).sizes }
        requires graph { IsDrawn self.now graph.old (stand.here + 1) }
        ensures order { IfOk result (λ k. k ≡ stand.order + length (extents.with_before (extents.both (extents.statements_extent body.now) (extents.extent_of (suc (length (expr_calls cond.now)))))).sizes) }
        ensures graph { OnOk result (IsDrawn self.now graph.new (stand.here + (extents.with_before (extents.both (extents.statements_extent body.now) (extents.extent_of (suc (length (expr_calls cond.now)))))).points)) }
        ensures exact { OnOk result (IsFollowedBy graph.old graph.new (until_piece (plan_in self.now) (map (laid_statement (plan_in self.now)) body.now) cond.now stand.here stand.next)) }
    {
        let mut sites = Vec::new(self.alloc);
        calls_in_expr(cond, &mut sites)?;
        let until = stand.here + self.size(stand.order) - 1 - sites.len() as u32;
        let inside = Stand {
            order: stand.order + 1,
            here: stand.here + 1,
            next: until,
        };
        let order = self.sequence(body, inside, graph)?;
        let last = self.calls(sites.as_slice(), until, graph)?;
        self.condition(cond, last, stand.next, inside.here, graph)?;
        Ok(order)
    }

    /// The statement of a `for` whose bounds are evaluated at the point `here`, and the ways from its end.
    #[cycle(wire)]
    fn for_loop(
        &self,
        turn: Turn,
        body: &Statement,
        here: u32,
        stand: Stand,
        graph: &mut Graph,
    ) -> Result<usize, AllocError>
        requires again { ActFits self.now.program.now self.now.routine (acts.Next turn.control turn.bound turn.down) }
        requires finish { ActFits self.now.program.now self.now.routine (acts.Finish turn.control turn.bound turn.down) }
        requires numbers { each_statement (numbers_in self.now.program.now) body.now ≡ true }
        requires types { statement_types_fit (tables self.now.program.now) body.now ≡ true }
        requires scopes { each_statement (scope_in self.now.program.now self.now.routine) body.now ≡ true }
        requires low { self.now.entry < here }
        requires room { here + (extents.statement_extent body.now).points + 2 ≤ self.now.exit }
        requires next_low { self.now.entry < stand.next }
        requires next_high { stand.next ≤ self.now.exit }
        requires sizes { SizesAt self.now (stand.order + 1) (extents.statement_extent body.now).sizes }
        requires graph { IsDrawn self.now graph.old (here + 1) }
        ensures order { IfOk result (λ k. k ≡ stand.order + 1 + length (extents.statement_extent body.now).sizes) }
        ensures graph { OnOk result (IsDrawn self.now graph.new (here + (extents.statement_extent body.now).points + 2)) }
        ensures exact { OnOk result (IsFollowedBy graph.old graph.new (loop_piece (plan_in self.now) turn.control turn.bound turn.down (laid_statement (plan_in self.now) body.now) here stand.next)) }
    {
        let step = here + 1 + self.size(stand.order + 1);
        let inside = Stand {
            order: stand.order + 1,
            here: here + 1,
            next: step,
        };
        let order = self.statement(body, inside, graph)?;
        self.turns(turn, step, here + 1, stand.next, graph)?;
        Ok(order)
    }
}
