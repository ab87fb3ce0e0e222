//! The numbers of a program at which a widening stops.
ghost use Rattle.std.specs.Prelude.{◌≡◌, IfOk};
ghost use Rattle.control_points.specs.Thresholds.{thresholds_of};
ghost use Rattle.lattice.specs.Lattice.{AreSteps};

use control_points::{Flow, thresholds};
use std::alloc::{AllocError, Global};
use std::marker::Model;

/// The steps of a program, in rising order.
#[derive(Drop)]
pub(crate) struct Stops {
    steps: Vec<i32>,
}

impl Model for Stops {
    ghost use Rattle.std.specs.Prelude.{List, ℤ};
    ghost use Rattle.lattice.specs.Lattice.{AreSteps};

    ghost Value = { List ℤ };

    ghost view = { λ s. s.steps.items };

    ghost invariant = { λ s. AreSteps s.steps.items };
}

impl Stops {
    pub(crate) fn of(alloc: Global, flow: &Flow) -> Result<Stops, AllocError>
        ensures { IfOk result (λ s. s ≡ thresholds_of flow.now.program) }
    {
        let steps = thresholds(alloc, flow)?;
        Ok(Stops { steps })
    }

    pub(crate) fn as_slice(&self) -> &[i32]
        ensures value { result.now ≡ self.now }
        ensures rising { AreSteps result.now }
    {
        &self.steps
    }
}
