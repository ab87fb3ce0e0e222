//! An environment with its room, and the calls on single cells.
ghost use Rattle.std.specs.Prelude.{◌≡◌, ◌<◌, ◌≤◌, IfOk, IsTrue, IsFalse};
ghost use Rattle.interval.specs.Values.{allows_nothing};
ghost use Rattle.environment.specs.Environments.{cell_count, is_reachable, values, value_at, has_empty_cell, undefined, started, after_set, after_weak_set};
ghost use Rattle.environment.specs.Environments.Environment.{Unreachable};
ghost use Rattle.environment.specs.Kept.{room_of};

use interval::{Itv, Val};
use lattice::Lattice;
use std::alloc::{AllocError, Global};
use std::marker::Model;

mod order;

/// What contracts see of an environment without its room: unreachable with so many cells, or the values of its cells. No
/// program makes one.
#[derive(Drop)]
pub struct Cells;

impl Model for Cells {
    ghost use Rattle.environment.specs.Environments.{Environment};
    ghost use Rattle.environment.specs.Environments.Environment.{Unreachable};

    ghost Value = { Environment };

    ghost view = { λ _. Unreachable 0 };
}

/// What each cell of a control point may hold, or that the point cannot be reached (Bourdoncle, PLDI 1993). It is
/// unreachable as soon as a cell allows nothing.
///
/// The values of the cells lie side by side in memory that `new` takes. It may be more than the cells need: this room is
/// left for environments of other shapes, to which `reshape` and `copy_from` lead. No call but `new` takes memory.
#[derive(Debug, Drop)]
pub struct Env {
    /// The values of the cells, where it is reachable; otherwise they say nothing.
    cells: Vec<Val>,
    count: u32,
    room: u32,
    reachable: bool,
}

impl Model for Env {
    ghost use Rattle.std.specs.Prelude.{vec_capacity};
    ghost use Rattle.environment.specs.Kept.{Roomy, kept, IsKept};

    ghost Value = { Roomy };

    ghost view = { λ e. kept e.reachable e.count e.room e.cells.items };

    ghost invariant = { λ e. IsKept e.reachable e.count e.room (vec_capacity e.cells) e.cells.items };
}

impl Env {
    /// An unreachable environment of so many cells, with room for `room` of them.
    pub fn new(alloc: Global, room: u32, cells: u32) -> Result<Env, AllocError>
        requires { cells ≤ room }
        ensures value { IfOk result (λ e. e.env ≡ Unreachable cells) }
        ensures room { IfOk result (λ e. room_of e ≡ room) }
    {
        Ok(Env {
            cells: Vec::with_capacity(alloc, room as usize)?,
            count: cells,
            room,
            reachable: false,
        })
    }

    /// How many cells it has.
    pub fn cells(&self) -> u32
        ensures { result ≡ cell_count self.now.env }
    {
        self.count
    }

    /// Whether the point may be reached. Then each cell allows something.
    pub fn reachable(&self) -> bool
        ensures value { result ≡ is_reachable self.now.env }
        ensures something { IsFalse (has_empty_cell (values self.now.env)) }
    {
        self.reachable
    }

    /// Makes it reachable, with all cells undefined.
    pub fn start(&mut self)
        ensures value { self.new.env ≡ started (cell_count self.old.env) }
        ensures room { room_of self.new ≡ room_of self.old }
    {
        self.cells.clear();
        self.cells.resize(self.count as usize, undefined()).unwrap();
        self.reachable = true;
    }

    /// Gives it so many cells, and makes it unreachable.
    pub fn reshape(&mut self, cells: u32)
        requires { cells ≤ room_of self.old }
        ensures value { self.new.env ≡ Unreachable cells }
        ensures room { room_of self.new ≡ room_of self.old }
    {
        self.count = cells;
        self.reachable = false;
    }

    /// The value of a cell.
    pub fn get(&self, cell: u32) -> Val
        requires reachable { IsTrue (is_reachable self.now.env) }
        requires in_range { cell < cell_count self.now.env }
        ensures value { result ≡ value_at self.now.env cell }
        ensures something { IsFalse (allows_nothing result) }
    {
        self.cells[cell as usize]
    }

    /// Gives a cell this value in place of its own.
    pub fn set(&mut self, cell: u32, v: Val)
        requires reachable { IsTrue (is_reachable self.old.env) }
        requires in_range { cell < cell_count self.old.env }
        ensures value { self.new.env ≡ after_set self.old.env cell v }
        ensures room { room_of self.new ≡ room_of self.old }
    {
        self.cells[cell as usize] = v;
        self.reachable = !v.is_bottom();
    }

    /// Joins a value to that of a cell of which only a part gets it.
    pub fn weak_set(&mut self, cell: u32, v: Val)
        requires reachable { IsTrue (is_reachable self.old.env) }
        requires in_range { cell < cell_count self.old.env }
        ensures value { self.new.env ≡ after_weak_set self.old.env cell v }
        ensures room { room_of self.new ≡ room_of self.old }
    {
        self.cells[cell as usize].join_from(&v);
    }

    /// Makes a cell undefined, and nothing else.
    pub fn forget(&mut self, cell: u32)
        requires reachable { IsTrue (is_reachable self.old.env) }
        requires in_range { cell < cell_count self.old.env }
        ensures value { self.new.env ≡ after_set self.old.env cell undefined }
        ensures room { room_of self.new ≡ room_of self.old }
    {
        self.set(cell, undefined());
    }
}

/// The value of a cell that is undefined and holds no number.
fn undefined() -> Val
    ensures { result ≡ undefined }
{
    Val {
        undef: true,
        itv: Itv::EMPTY,
    }
}
