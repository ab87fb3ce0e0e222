//! Passes over the cells of environments.
ghost use Rattle.std.specs.Prelude.{◌≡◌, ◌≢◌, ◌≤◌, ◌↔◌, length, not, vec_capacity, IsTrue, IsFalse, IsNone, IfSome, OnSome};
ghost use Rattle.std.specs.Bool.{OnTrue, OnFalse};
ghost use Rattle.lattice.specs.Lattice.{AreSteps};
ghost use Rattle.interval.specs.Values.{val_join, val_meet, val_widen, val_narrow};
ghost use Rattle.environment.specs.Environments.{has_empty_cell};
ghost use Rattle.environment.specs.Pointwise.{each, each_within, each_below};

use interval::Val;
use lattice::Lattice;

/// How many cells are copied at a time. A longer piece may be copied byte by byte, as by `rep movsb`.
const BLOCK: usize = 128;

/// Makes the cells those of `others`, for which there is memory.
pub(crate) fn copy_cells(cells: &mut Vec<Val>, others: &[Val])
    requires { length others.now ≤ vec_capacity cells.old }
    ensures items { cells.new.items ≡ others.now }
    ensures capacity { vec_capacity cells.old ≤ vec_capacity cells.new }
{
    cells.clear();
    let mut rest = others;
    while rest.len() > BLOCK {
        let (block, behind) = rest.split_at(BLOCK);
        cells.extend_from_slice(block).unwrap();
        rest = behind;
    }
    cells.extend_from_slice(rest).unwrap();
}

/// Joins to each cell the other one's value.
pub(crate) fn join_cells(cells: &mut [Val], others: &[Val])
    requires { length cells.old ≡ length others.now }
    ensures { cells.new ≡ each val_join cells.old others.now }
{
    for (i, cell) in cells.iter_mut().enumerate() {
        cell.join_from(&others[i]);
    }
}

/// Meets each cell with the other one, and answers whether each allows something then, as before. It stops at one that does
/// not.
pub(crate) fn meet_cells(cells: &mut [Val], others: &[Val]) -> bool
    requires something { IsFalse (has_empty_cell cells.old) }
    requires others { length cells.old ≡ length others.now }
    ensures settled { result ≡ not (has_empty_cell (each val_meet cells.old others.now)) }
    ensures value { IsTrue result → cells.new ≡ each val_meet cells.old others.now }
{
    for (i, cell) in cells.iter_mut().enumerate() {
        let other = &others[i];
        if !cell.leq(other) {
            cell.meet_from(other);
            if cell.is_bottom() {
                return false;
            }
        }
    }
    true
}

/// Whether each cell is below the other one.
pub(crate) fn are_below(cells: &[Val], others: &[Val]) -> bool
    requires { length cells.now ≡ length others.now }
    ensures { result ≡ each_below cells.now others.now }
{
    for (i, cell) in cells.iter().enumerate() {
        if !cell.leq(&others[i]) {
            return false;
        }
    }
    true
}

/// Widens each cell by the other one within its limit, and answers whether one changed.
pub(crate) fn widen_cells(cells: &mut [Val], others: &[Val], limits: &[Val], steps: &[i32]) -> bool
    requires within { IsTrue (each_below cells.old limits.now) }
    requires others_within { IsTrue (each_below others.now limits.now) }
    requires steps { AreSteps steps.now }
    ensures value { cells.new ≡ each_within (val_widen steps.now) cells.old others.now limits.now }
    ensures changed { OnTrue result (cells.new ≢ cells.old) }
    ensures same { OnFalse result (cells.new ≡ cells.old) }
{
    let mut changed = false;
    for (i, cell) in cells.iter_mut().enumerate() {
        if cell.widen_from(&others[i], &limits[i], steps) {
            changed = true;
        }
    }
    changed
}

/// Narrows each cell, which allows something, by the other one within its limit, and answers whether one changed, or nothing
/// where a cell is left that allows nothing. It stops at such a cell.
pub(crate) fn narrow_cells(cells: &mut [Val], others: &[Val], limits: &[Val]) -> Option<bool>
    requires something { IsFalse (has_empty_cell cells.old) }
    requires others { length cells.old ≡ length others.now }
    requires limits { length cells.old ≡ length limits.now }
    ensures emptied { IsNone result ↔ IsTrue (has_empty_cell (each_within val_narrow cells.old others.now limits.now)) }
    ensures value { OnSome result (cells.new ≡ each_within val_narrow cells.old others.now limits.now) }
    ensures changed { IfSome result (λ changed. OnTrue changed (cells.new ≢ cells.old)) }
    ensures same { IfSome result (λ changed. OnFalse changed (cells.new ≡ cells.old)) }
{
    let mut changed = false;
    for (i, cell) in cells.iter_mut().enumerate() {
        if cell.narrow_from(&others[i], &limits[i]) {
            changed = true;
            if cell.is_bottom() {
                return None;
            }
        }
    }
    Some(changed)
}
