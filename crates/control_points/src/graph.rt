//! Edges and checks as they come, and by the points that they belong to.
ghost use Rattle.std.specs.Prelude.{◌≡◌, ◌<◌, ◌++◌, ◌∷◌, ◌^◌, [], ℕ, List, length, vec_len, replicate, OnOk, IfOk, slice_get, slice_set, Some};
ghost use Rattle.control_points.specs.Listing as listing;
ghost use Rattle.control_points.specs.declared.edge.Act.TheVariants as acts;
ghost use Rattle.control_points.specs.declared.edge.Edge.{Edge};

use crate::check::Check;
use crate::edge::{Act, Edge};
use sqlite_items::Items;
use std::alloc::{AllocError, Global};

/// More edges than a number can name are more than memory holds.
const MOST_EDGES: usize = u32::MAX as usize;

/// The edges and checks of a program, as far as they are listed.
#[derive(Drop)]
pub struct Graph {
    pub edges: Items<Edge>,
    pub checks: Items<Check>,
    ghost few: { length edges < 2 ^ 32 },
}

impl Graph {
    pub fn new(alloc: Global) -> Graph
        ensures edges { result.edges ≡ [] }
        ensures checks { result.checks ≡ [] }
    {
        Graph {
            edges: Items::new(alloc),
            checks: Items::new(alloc),
        }
    }

    /// An edge that is no call and no return.
    pub fn edge(&mut self, from: u32, act: Act, to: u32) -> Result<(), AllocError>
        ensures edges { OnOk result (self.new.edges ≡ self.old.edges ++ listing.edge from act to ∷ []) }
        ensures checks { OnOk result (self.new.checks ≡ self.old.checks) }
    {
        if self.edges.len() >= MOST_EDGES {
            return Err(AllocError);
        }
        self.edges.push(Edge { from, act, to })
    }

    /// The edge of a call, and right after it that of its return.
    pub fn call(
        &mut self,
        from: u32,
        act: Act,
        entry: u32,
        exit: u32,
        back: u32,
    ) -> Result<(), AllocError>
        ensures edges { OnOk result (self.new.edges ≡ (self.old.edges ++ listing.edge from act entry ∷ []) ++ listing.edge exit (acts.Return (length self.old.edges)) back ∷ []) }
        ensures checks { OnOk result (self.new.checks ≡ self.old.checks) }
    {
        let call = self.edges.len();
        if call >= MOST_EDGES - 1 {
            return Err(AllocError);
        }
        self.edges.push(Edge {
            from,
            act,
            to: entry,
        })?;
        let act = Act::Return { call: call as u32 };
        self.edges.push(Edge {
            from: exit,
            act,
            to: back,
        })
    }
}

/// One end of an edge.
#[derive(Clone, Copy)]
pub enum End {
    Source,
    Target,
}

fn end_of(end: End, e: &Edge) -> u32
    ensures { result ≡ listing.end_of end e.now }
{
    match end {
        End::Source => e.from,
        End::Target => e.to,
    }
}

/// For each of the first `points` points the numbers of the edges that have it at that end. The time is linear.
pub fn by_point(
    alloc: Global,
    points: usize,
    end: End,
    edges: &[Edge],
) -> Result<Items<Items<u32>>, AllocError>
    requires few { length edges.now < 2 ^ 32 }
    requires within { (k : ℕ) (e : Edge) → slice_get edges.now k ≡ Some e → listing.end_of end e < points }
    ensures { IfOk result (λ lists. (p : ℕ) → p < points → slice_get lists p ≡ Some (listing.at_end end edges.now p)) }
{
    let mut lists = empty_lists(alloc, points)?;
    for (k, e) in edges.iter().enumerate() {
        let at = end_of(end, e) as usize;
        add(&mut lists, at, k as u32)?;
    }
    Ok(Items::from_vec(lists))
}

/// Adds a number to one of the lists.
fn add(lists: &mut Vec<Items<u32>>, at: usize, number: u32) -> Result<(), AllocError>
    requires { at < vec_len lists.old }
    ensures { OnOk result ((listed : List ℕ) → slice_get lists.old.items at ≡ Some listed → lists.new.items ≡ slice_set lists.old.items at (listed ++ number ∷ [])) }
{
    lists[at].push(number)
}

fn empty_lists(alloc: Global, count: usize) -> Result<Vec<Items<u32>>, AllocError>
    ensures { IfOk result (λ lists. lists.items ≡ replicate count []) }
{
    let mut lists = Vec::new(alloc);
    for _k in 0..count {
        lists.push(Items::new(alloc))?;
    }
    Ok(lists)
}
