//! Environments as a lattice.
ghost use Rattle.std.proofs.Common.{◌≤◌};
ghost use Rattle.environment.specs.Environments.{Covers, env_ops};
ghost use Rattle.environment.specs.EnvironmentLaws.{env_laws, proper_element};
ghost use Rattle.environment.specs.Kept.{room_of, fits_its_room};

use super::{Cells, Env};
use crate::passes::{are_below, copy_cells, join_cells, meet_cells, narrow_cells, widen_cells};
use lattice::Lattice;

impl Lattice for Env {
    ghost use Rattle.std.specs.Prelude.{List, Option, ℤ};

    type Plain = Cells;

    ghost Point = { List (List (Option ℤ)) };

    ghost value = { λ e. e.env };

    ghost room = { room_of };

    ghost has = { Covers };

    ghost ops = { env_ops };

    ghost laws = { env_laws };

    ghost elements = { λ e. proper_element e.env e.proper };

    ghost fits = { fits_its_room };

    fn is_bottom(&self) -> bool {
        !self.reachable
    }

    fn set_bottom(&mut self) {
        self.reachable = false;
    }

    fn copy_from(&mut self, other: &Self) {
        if other.reachable {
            copy_cells(&mut self.cells, &other.cells);
        }
        self.count = other.count;
        self.reachable = other.reachable;
    }

    fn join_from(&mut self, other: &Self) {
        if !self.reachable {
            self.copy_from(other);
        } else if other.reachable {
            join_cells(&mut self.cells, &other.cells);
        }
    }

    fn meet_from(&mut self, other: &Self) {
        if !self.reachable {
            return;
        }
        if !other.reachable {
            self.reachable = false;
            return;
        }
        self.reachable = meet_cells(&mut self.cells, &other.cells);
    }

    fn leq(&self, other: &Self) -> bool {
        !self.reachable || other.reachable && are_below(&self.cells, &other.cells)
    }

    fn widen_from(&mut self, y: &Self, limit: &Self, steps: &[i32]) -> bool {
        if !y.reachable {
            return false;
        }
        if !self.reachable {
            self.copy_from(y);
            return true;
        }
        widen_cells(&mut self.cells, &y.cells, &limit.cells, steps)
    }

    fn narrow_from(&mut self, y: &Self, limit: &Self) -> bool {
        if !self.reachable {
            return false;
        }
        if !y.reachable {
            self.reachable = false;
            return true;
        }
        let limits = if limit.reachable {
            &limit.cells
        } else {
            // within itself no bound moves
            &y.cells
        };
        match narrow_cells(&mut self.cells, &y.cells, limits) {
            Some(changed) => changed,
            None => {
                self.reachable = false;
                true
            }
        }
    }
}
