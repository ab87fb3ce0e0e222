//! The next of the numbers at which a bound stops on its way to the limit's, found by bisection.
ghost use Rattle.std.specs.Prelude.{◌≡◌};
ghost use Rattle.lattice.specs.Lattice.{AreSteps};
ghost use Rattle.interval.specs.Steps.{step_up, step_down};

/// The least step that is at least `z`, or `end` where there is no such step below it.
pub(crate) fn step_up(steps: &[i32], z: i32, end: i32) -> i32
    requires { AreSteps steps.now }
    ensures { result ≡ step_up steps.now z end }
{
    let place = steps.partition_point(|step| *step < z);
    if place == steps.len() {
        return end;
    }
    end.min(steps[place])
}

/// The greatest step that is at most `z`, or `end` where there is no such step above it.
pub(crate) fn step_down(steps: &[i32], z: i32, end: i32) -> i32
    requires { AreSteps steps.now }
    ensures { result ≡ step_down steps.now z end }
{
    let place = steps.partition_point(|step| *step <= z);
    if place == 0 {
        return end;
    }
    end.max(steps[place - 1])
}
