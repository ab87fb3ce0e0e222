//! Worked systems over intervals with how many evaluations each takes, a comparison with an engine without marks, and a system
//! of nested components.
ghost use Rattle.std.specs.Prelude.{◌≡◌, ℕ, ◌+◌, ◌*◌, ◌<◌, ◌^◌, ◌++◌, ⊤, map, length, vec_len, IsTrue, ◌↔◌, OnOk, IfOk};
ghost use Rattle.std.specs.List.{All, Contains};
ghost use Rattle.std.proofs.Common.{◌∙◌};
ghost use Rattle.std.proofs.lemmas.List.{length-map};
ghost use Rattle.lattice.specs.Lattice.{AreSteps};
ghost use Rattle.weak_order.specs.Order.{IsWeakOrder};
ghost use Rattle.fixpoint.specs.System.{Reads};
ghost use Rattle.fixpoint.specs.Worked.{flow, value_of, system_of, is_system, AreListsBelow};

use crate::{Equations, ascend, descend, reverse_lists};
use interval::{Itv, Val, binary};
use lattice::{Lattice, Steps};
use px_base::BinOp;
use std::alloc::{AllocError, Global};
use std::marker::{Brand, Model};
use std::process::Abort;
use std::sync::ledger::{Blank, Ledger};
use weak_order::{Edges, Order, order};

mod plain;

use plain::{MOST_DEPTH, Plain};

const MAX: i64 = 2_147_483_647;

/// A node holds its start, and of each node that it reads the numbers within `part`, after a step.
#[derive(Drop)]
struct Equation {
    start: Val,
    part: Itv,
    step: Itv,
}

impl Model for Equation {
    ghost use Rattle.fixpoint.specs.Worked.{Rule};

    ghost Value = { Rule };

    ghost view = { λ e. record { start = e.start; part = e.part; step = e.step } };
}

/// What flows from a node.
fn flow(from: Val, part: Itv, step: Itv) -> Val
    ensures { result ≡ flow from part step }
{
    Val {
        undef: false,
        itv: binary(BinOp::Add, from.itv.meet(part), step).value,
    }
}

impl Equation {
    fn value(&self, reads: &[u32], table: &[Val]) -> Val
        requires { (r : ℕ) → Contains reads.now r → r < length table.now }
        ensures { result ≡ value_of self.now reads.now table.now }
    {
        let mut all = self.start;
        for &node in reads {
            all.join_from(&flow(table[node as usize], self.part, self.step));
        }
        all
    }
}

/// Equations, and the nodes that each reads, which count how often they are evaluated.
#[derive(Drop)]
struct Counted<'e, 'r> {
    equations: &'e [Equation],
    reads: &'r [Vec<u32>],
    evaluated: u32,
    ghost few: { length equations.now < 2 ^ 32 },
    ghost as_many: { length reads.now ≡ length equations.now },
    ghost in_range: { AreListsBelow (length equations.now) (map (λ v. v.items) reads.now) },
}

impl Equations<Val> for Counted<'_, '_> {
    ghost system = { λ s. system_of s.equations.now (map (λ v. v.items) s.reads.now) };

    ghost Kept = { ⊤ };

    ghost kept = { λ _. tt };

    ghost laws = { λ s. is_system s.equations.now (map (λ v. v.items) s.reads.now) (length-map s.reads.now (λ v. v.items) ∙ s.as_many) s.in_range };

    fn nodes(&self) -> u32 {
        self.equations.len() as u32
    }

    fn reads(&self, node: u32) -> &[u32] {
        &self.reads[node as usize]
    }

    fn eval<G: Ledger>(&mut self, node: u32, table: &[Val], out: &mut Val, count: &mut Steps<G>) {
        *out = self.equations[node as usize].value(&self.reads[node as usize], table);
        self.evaluated = self.evaluated.saturating_add(1);
        count.tick();
    }
}

/// The system of equations and of what each reads.
fn counted_system<'e, 'r>(
    rt: &impl Abort,
    equations: &'e [Equation],
    reads: &'r [Vec<u32>],
) -> Counted<'e, 'r> {
    assert!(rt; equations.len() <= 100_000 && reads.len() == equations.len());
    assert!(rt; are_lists_of_nodes(reads, equations.len()));
    Counted {
        equations,
        reads,
        evaluated: 0,
    }
}

/// Whether all are numbers of nodes.
fn are_nodes(reads: &[u32], nodes: usize) -> bool
    ensures { IsTrue result ↔ All (λ r. r < nodes) reads.now }
{
    reads.iter().all(|&r| (r as usize) < nodes)
}

/// Whether the members of all lists are numbers of nodes.
fn are_lists_of_nodes(lists: &[Vec<u32>], nodes: usize) -> bool
    ensures { IsTrue result → AreListsBelow nodes (map (λ v. v.items) lists.now) }
{
    for list in lists {
        if !are_nodes(list, nodes) {
            return false;
        }
    }
    true
}

/// Adds an edge from each node that an equation reads to its own.
fn add_reads(edges: &mut Edges, reads: &[u32], node: u32) -> Result<(), AllocError>
    requires node { node < edges.old.nodes }
    requires reads { (r : ℕ) → Contains reads.now r → r < edges.old.nodes }
    ensures nodes { edges.new.nodes ≡ edges.old.nodes }
    ensures pairs { OnOk result (edges.new.pairs ≡ edges.old.pairs ++ map (λ r. (r, node)) reads.now) }
{
    for &read in reads {
        edges.add(read, node)?;
    }
    Ok(())
}

/// The order of the nodes by what their equations read.
fn order_of(alloc: Global, system: &Counted) -> Result<Order, AllocError>
    ensures { IfOk result (λ order. IsWeakOrder (Reads (system_of system.now.equations.now (map (λ v. v.items) system.now.reads.now))) (length system.now.equations.now) order) }
{
    let mut edges = Edges::new(alloc, system.nodes())?;
    for node in 0..system.nodes() {
        add_reads(&mut edges, system.reads(node), node)?;
    }
    order(alloc, &edges, false)
}

/// The order in which each node is the head of a component with all later ones.
fn nest_of(alloc: Global, system: &Counted) -> Result<Order, AllocError>
    ensures { IfOk result (λ order. IsWeakOrder (Reads (system_of system.now.equations.now (map (λ v. v.items) system.now.reads.now))) (length system.now.equations.now) order) }
{
    let count = system.nodes();
    let mut nodes = Vec::with_capacity(alloc, count as usize)?;
    let mut ends = Vec::with_capacity(alloc, count as usize)?;
    for node in 0..count {
        nodes.push(node)?;
        ends.push(count)?;
    }
    Order::from_columns(alloc, nodes, ends)
}

fn anything() -> Val {
    Val {
        undef: true,
        itv: Itv::between(-MAX, MAX),
    }
}

/// The numbers from `lo` to `hi`, and not undefined.
fn holding(lo: i64, hi: i64) -> Val {
    Val {
        undef: false,
        itv: Itv::between(lo, hi),
    }
}

/// The tables that an ascent and then a descent leave, and the numbers of their evaluations.
#[derive(Drop)]
struct Solution {
    ascended: Vec<Val>,
    ascent: u32,
    descended: Vec<Val>,
    descent: u32,
}

/// Solves a system upwards and then downwards, with the whole range as each limit.
fn solve<G: Ledger>(
    alloc: Global,
    blank: Blank,
    order: &Order,
    system: &mut Counted,
    steps: &[i32],
) -> Result<Solution, AllocError>
    requires name { blank.name ≡ G.name }
    requires parts { blank.parts ≡ G.parts }
    requires some { 0 < G.parts }
    requires order { IsWeakOrder (Reads (system_of system.old.equations.now (map (λ v. v.items) system.old.reads.now))) (length system.old.equations.now) order.now }
    requires steps { AreSteps steps.now }
{
    let limits = vec![in alloc; anything(); system.equations.len()]?;
    let mut table = vec![in alloc; anything(); system.equations.len()]?;
    let mut scratch = anything();
    let mut stale = vec![in alloc; false; system.equations.len()]?;
    let read_by = reverse_lists(alloc, system.reads)?;
    let mut count = Steps::<G>::new(blank);
    system.evaluated = 0;
    ascend(
        order,
        system,
        &limits,
        steps,
        &read_by,
        &mut stale,
        &mut table,
        &mut scratch,
        &mut count,
    );
    let ascent = system.evaluated;
    let ascended = Vec::from_slice(alloc, &table)?;
    system.evaluated = 0;
    descend(
        order,
        system,
        &limits,
        &read_by,
        &mut stale,
        &mut table,
        &mut scratch,
        &mut count,
    );
    Ok(Solution {
        ascended,
        ascent,
        descended: table,
        descent: system.evaluated,
    })
}

/// A node that holds what the nodes hold that it reads, and its start.
fn join(start: Val) -> Equation {
    Equation {
        start,
        part: Itv::between(-MAX, MAX),
        step: Itv::between(0, 0),
    }
}

/// A node that holds its start, and one more than each number up to 99 of the nodes that it reads.
fn next(start: Val) -> Equation {
    Equation {
        start,
        part: Itv::between(-MAX, 99),
        step: Itv::between(1, 1),
    }
}

/// A system, whether it is solved by steps, the node and the end at each place of its order, and after the ascent and after
/// the descent the number of its evaluations and the ends of the numbers that each node holds.
#[derive(Drop)]
struct Case<'a> {
    equations: &'a [Equation],
    reads: &'static [&'static [u32]],
    by_steps: bool,
    places: &'static [(u32, u32)],
    ascent: u32,
    ascended: &'static [(i64, i64)],
    descent: u32,
    descended: &'static [(i64, i64)],
}

fn assert_order(rt: &impl Abort, order: &Order, places: &[(u32, u32)]) {
    assert_eq!(rt; order.len() as usize, places.len());
    for place in 0..order.len() {
        assert_eq!(rt;
            (order.node(place), order.end(place)),
            places[place as usize]
        );
    }
}

fn assert_table(rt: &impl Abort, table: &[Val], ends: &[(i64, i64)]) {
    assert_eq!(rt; table.len(), ends.len());
    for (node, &(lo, hi)) in ends.iter().enumerate() {
        assert_eq!(rt; table[node], holding(lo, hi), "node {node}");
    }
}

fn lists_of(alloc: Global, slices: &[&[u32]]) -> Result<Vec<Vec<u32>>, AllocError> {
    let mut lists = Vec::new(alloc);
    for slice in slices {
        lists.push(Vec::from_slice(alloc, slice)?)?;
    }
    Ok(lists)
}

/// No steps, or those that the program `i := 1; while i <> 100 do i := i + 1` would give.
fn steps_of(by_steps: bool) -> &'static [i32]
    ensures { AreSteps result.now }
{
    if by_steps {
        return &[0, 1, 2, 99, 100, 101];
    }
    &[]
}

fn assert_solved(rt: &impl Abort, alloc: Global, case: &Case) -> Result<(), AllocError> {
    let reads = lists_of(alloc, case.reads)?;
    let mut system = counted_system(rt, case.equations, &reads);
    let order = order_of(alloc, &system)?;
    assert_order(rt, &order, case.places);
    let steps = steps_of(case.by_steps);
    let solution = solve::<Brand>(alloc, Blank::new(1), &order, &mut system, steps)?;
    assert_eq!(rt; solution.ascent, case.ascent);
    assert_table(rt, &solution.ascended, case.ascended);
    assert_eq!(rt; solution.descent, case.descent);
    assert_table(rt, &solution.descended, case.descended);
    Ok(())
}

#[test]
fn worked_systems(rt: HostRuntime) -> Result<(), AllocError> {
    let nothing = holding(1, 0);
    let zero = holding(0, 0);
    let counts_to_100 = [join(zero), join(nothing), next(nothing)];
    let cases = [
        // a loop that counts from 0 to 100, without steps and by steps
        Case {
            equations: &counts_to_100,
            reads: &[&[], &[0, 2], &[1]],
            by_steps: false,
            places: &[(0, 0), (1, 3), (2, 2)],
            ascent: 6,
            ascended: &[(0, 0), (0, MAX), (1, 100)],
            descent: 3,
            descended: &[(0, 0), (0, 100), (1, 100)],
        },
        Case {
            equations: &counts_to_100,
            reads: &[&[], &[0, 2], &[1]],
            by_steps: true,
            places: &[(0, 0), (1, 3), (2, 2)],
            ascent: 11,
            ascended: &[(0, 0), (0, 100), (1, 100)],
            descent: 3,
            descended: &[(0, 0), (0, 100), (1, 100)],
        },
        // no node, and one without and with an edge to itself
        Case {
            equations: &[],
            reads: &[],
            by_steps: false,
            places: &[],
            ascent: 0,
            ascended: &[],
            descent: 0,
            descended: &[],
        },
        Case {
            equations: &[join(zero)],
            reads: &[&[]],
            by_steps: false,
            places: &[(0, 0)],
            ascent: 1,
            ascended: &[(0, 0)],
            descent: 1,
            descended: &[(0, 0)],
        },
        Case {
            equations: &[next(zero)],
            reads: &[&[0]],
            by_steps: false,
            places: &[(0, 1)],
            ascent: 3,
            ascended: &[(0, MAX)],
            descent: 2,
            descended: &[(0, 100)],
        },
        // the head holds nothing at first, and its component is left only after a whole turn
        Case {
            equations: &[join(nothing), join(zero)],
            reads: &[&[1], &[0]],
            by_steps: false,
            places: &[(0, 2), (1, 1)],
            ascent: 4,
            ascended: &[(0, 0), (0, 0)],
            descent: 2,
            descended: &[(0, 0), (0, 0)],
        },
    ];
    for case in &cases {
        assert_solved(&rt, rt.alloc(), case)?;
    }
    Ok(())
}

/// Numbers drawn by a linear congruence.
#[derive(Drop)]
struct Draw(u32);

impl Draw {
    /// A number below `count`, or 0.
    fn below(&mut self, count: u32) -> u32
        ensures { 0 < count → result < count }
    {
        self.0 = self.0.wrapping_mul(1_664_525).wrapping_add(1_013_904_223);
        (self.0 >> 16) % count.max(1)
    }

    /// The numbers from one up to another, or from -99 to 99.
    fn numbers(&mut self) -> Itv {
        let lo = i64::from(self.below(199)) - 99;
        let hi = i64::from(self.below(199)) - 99;
        Itv::between(lo.min(hi), lo.max(hi))
    }

    fn equation(&mut self) -> Equation {
        let start = match self.below(3) {
            0 => self.numbers(),
            _ => Itv::between(1, 0),
        };
        let part = match self.below(2) {
            0 => self.numbers(),
            _ => Itv::between(-MAX, MAX),
        };
        let step = i64::from(self.below(5)) - 2;
        Equation {
            start: Val {
                undef: self.below(4) == 0,
                itv: start,
            },
            part,
            step: Itv::between(step, step),
        }
    }

    /// Up to three nodes.
    fn reads(&mut self, alloc: Global, nodes: u32) -> Result<Vec<u32>, AllocError> {
        let mut reads = Vec::new(alloc);
        for _ in 0..self.below(4) {
            reads.push(self.below(nodes))?;
        }
        Ok(reads)
    }
}

/// Solves one drawn system, and compares with what the engine without marks makes of it.
fn assert_drawn(rt: &impl Abort, alloc: Global, seed: u32) -> Result<(), AllocError> {
    let mut draw = Draw(seed);
    let nodes = 1 + draw.below(12);
    let mut equations = Vec::new(alloc);
    let mut reads = Vec::new(alloc);
    for _ in 0..nodes {
        equations.push(draw.equation())?;
        reads.push(draw.reads(alloc, nodes)?)?;
    }
    let mut system = counted_system(rt, &equations, &reads);
    let order = order_of(alloc, &system)?;
    let steps = steps_of(draw.below(2) == 0);
    let solution = solve::<Brand>(alloc, Blank::new(1), &order, &mut system, steps)?;
    assert_plain(rt, alloc, &system, &order, steps, &solution)
}

/// Solves the system by the engine without marks, and compares the tables, and that it makes no fewer evaluations.
fn assert_plain(
    rt: &impl Abort,
    alloc: Global,
    system: &Counted,
    order: &Order,
    steps: &[i32],
    solution: &Solution,
) -> Result<(), AllocError>
    requires { AreSteps steps.now }
{
    let mut plain = Plain {
        order,
        equations: system.equations,
        reads: system.reads,
        steps,
        evaluated: 0,
    };
    let mut table = vec![in alloc; holding(1, 0); system.equations.len()]?;
    plain.ascend(rt, &mut table, 0, order.len(), MOST_DEPTH);
    assert!(rt; table == solution.ascended && solution.ascent <= plain.evaluated);
    plain.evaluated = 0;
    plain.descend(rt, &mut table);
    assert!(rt; table == solution.descended && solution.descent <= plain.evaluated);
    Ok(())
}

#[test]
fn as_without_marks(rt: HostRuntime) -> Result<(), AllocError> {
    for seed in 0..3000 {
        assert_drawn(&rt, rt.alloc(), seed)?;
    }
    Ok(())
}

/// 100,000 nodes, each the head of a component with all later ones, that read the node before them, and the first the last.
#[test]
fn nested_components(rt: HostRuntime) -> Result<(), AllocError> {
    let alloc = rt.alloc();
    let mut equations = Vec::new(alloc);
    let mut reads = Vec::new(alloc);
    for node in 0..100_000u32 {
        let first = node == 0;
        equations.push(if first {
            next(holding(0, 0))
        } else {
            join(holding(1, 0))
        })?;
        let read = if first { 99_999 } else { node - 1 };
        reads.push(vec![in alloc; read; 1]?)?;
    }
    let mut system = counted_system(&rt, &equations, &reads);
    let order = nest_of(alloc, &system)?;
    let solution = solve::<Brand>(alloc, Blank::new(1), &order, &mut system, steps_of(false))?;
    // each node once, and then each again after the first has grown, which is tested after both turns
    assert_eq!(rt; solution.ascent, 200_001);
    assert_eq!(rt; solution.descent, 100_001);
    for (node, element) in solution.ascended.iter().enumerate() {
        assert_eq!(rt; *element, holding(0, MAX), "node {node}");
    }
    for (node, element) in solution.descended.iter().enumerate() {
        assert_eq!(rt; *element, holding(0, 100), "node {node}");
    }
    Ok(())
}
