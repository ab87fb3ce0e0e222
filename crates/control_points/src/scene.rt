//! The routine that the second walk is in, what it looks up there, and an edge that stays in it.
ghost use Rattle.std.specs.Prelude.{◌≡◌, ℕ, suc, ◌-◌, ◌<◌, ◌≤◌, length, true, OnOk, slice_index, Some};
ghost use Rattle.control_points.specs.Edges.{label_point};
ghost use Rattle.control_points.specs.Leading.{goes_on_after};
ghost use Rattle.control_points.specs.Pieces.{IsFollowedBy, way};
ghost use Rattle.control_points.specs.Scenes.{IsPlaced};
ghost use Rattle.control_points.specs.Wired.{ActFits};

use crate::edge::Act;
use crate::graph::Graph;
use crate::judging::Judge;
use crate::labels::Labels;
use crate::numbering::Numbering;
use pas_program::Program;
use std::alloc::{AllocError, Global};

/// The routine that the walk is in, and what it looks up.
#[derive(Drop)]
pub struct Scene<'a> {
    pub alloc: Global,
    pub program: &'a Program,
    pub numbering: &'a Numbering,
    pub labels: &'a [Labels],
    pub routine: u32,
    pub entry: u32,
    pub exit: u32,
    pub ghost placed: { IsPlaced program.now numbering.now.marks numbering.now.entries labels.now routine entry exit },
}

impl<'a> Scene<'a> {
    ghost use Rattle.control_points.specs.Drawing.{IsDrawn, points_in};
    ghost use Rattle.control_points.specs.Fits.{routine_at};

    /// The checks of a point.
    pub fn judge(&self, point: u32) -> Judge<'a>
        ensures program { result.program.now ≡ self.now.program.now }
        ensures point { result.point ≡ point }
    {
        Judge {
            program: self.program,
            point,
        }
    }

    /// How many points the statement has.
    pub fn size(&self, order: usize) -> u32
        requires { order < length self.now.numbering.now.sizes }
        ensures { result ≡ slice_index self.now.numbering.now.sizes order }
    {
        self.numbering.sizes.as_slice()[order]
    }

    /// The entry of a routine.
    pub fn entry_of(&self, routine: u32) -> u32
        requires { routine < length self.now.program.now.routines }
        ensures { result ≡ slice_index self.now.numbering.now.entries routine }
    {
        self.numbering.entries.as_slice()[routine as usize]
    }

    /// The exit of a routine.
    pub fn exit_of(&self, routine: u32) -> u32
        requires { routine < length self.now.program.now.routines }
        ensures { result ≡ slice_index self.now.numbering.now.entries (suc routine) - 1 }
    {
        self.numbering.entries.as_slice()[routine as usize + 1] - 1
    }

    /// An edge that stays in the routine.
    pub fn edge(&self, from: u32, act: Act, to: u32, graph: &mut Graph) -> Result<(), AllocError>
        requires low { self.now.entry ≤ from }
        requires high { from < self.now.exit }
        requires next_low { self.now.entry < to }
        requires next_high { to ≤ self.now.exit }
        requires fits { ActFits self.now.program.now self.now.routine act }
        requires local { goes_on_after act ≡ true }
        ensures graph { (n : ℕ) → IsDrawn self.now graph.old n → OnOk result (IsDrawn self.now graph.new n) }
        ensures exact { OnOk result (IsFollowedBy graph.old graph.new (way from act to)) }
    {
        graph.edge(from, act, to)
    }

    /// The point before the statement with the label. In a checked program there is one; a label that stands nowhere
    /// leads to the exit.
    pub fn label(&self, routine: u32, number: u32) -> u32
        requires { routine < length self.now.program.now.routines }
        ensures within { routine_at (points_in self.now) result ≡ Some routine }
        ensures point { result ≡ label_point self.now.numbering.now.marks self.now.numbering.now.entries routine number }
    {
        match self.labels[routine as usize].points.get(&number) {
            Some(point) => *point,
            None => self.exit_of(routine),
        }
    }
}
