//! The steps at which a widening stops.
ghost use Rattle.std.specs.Prelude.{◌≡◌, IfOk, OnOk, fold, flat_map, int_le, position, if◌then◌else◌};
ghost use Rattle.std.specs.List.Sorted.{IsStrictlySortedBy};
ghost use Rattle.std.specs.Ordering.{int_cmp};
ghost use Rattle.arithmetic.specs.Numbers.{is_number};
ghost use Rattle.control_points.specs.Thresholds as spec;
ghost use Rattle.control_points.specs.Thresholds.{thresholds_of};

use crate::constants::Constants;
use crate::flow::Flow;
use std::alloc::{AllocError, Global};

/// The greatest integer of the language, and with a minus the least one.
const MAXINT: i64 = 2_147_483_647;

/// The steps of a program, in rising order without repeats: the first 20 different integer constants in the text of its
/// statements and assertions, each with the integers next to it. So there are at most 60.
///
/// A constant is a factor of an expression or a constant of a `case` over integers; a named one counts with its value, and a
/// sign belongs to a constant of a `case` alone. They are taken routine by routine. The time is linear in the program.
///
/// # Errors
///
/// Memory is lacking.
pub fn thresholds(alloc: Global, flow: &Flow) -> Result<Vec<i32>, AllocError>
    ensures steps { IfOk result (λ steps. steps.items ≡ thresholds_of flow.now.program) }
    ensures sorted { IfOk result (λ steps. IsStrictlySortedBy int_cmp steps.items) }
{
    let found = Constants::of_program(alloc, &flow.program)?;
    steps_of(alloc, found.values.as_slice())
}

/// The constants and their neighbours, in rising order.
fn steps_of(alloc: Global, constants: &[i32]) -> Result<Vec<i32>, AllocError>
    ensures { IfOk result (λ steps. steps.items ≡ spec.rising (flat_map spec.near constants.now)) }
{
    let mut steps = Vec::new(alloc);
    for z in constants {
        put_near(&mut steps, *z)?;
    }
    Ok(steps)
}

/// Adds a constant and its neighbours.
fn put_near(steps: &mut Vec<i32>, z: i32) -> Result<(), AllocError>
    ensures { OnOk result (steps.new.items ≡ fold spec.put_in steps.old.items (spec.near z)) }
{
    let z = i64::from(z);
    put_number(steps, z - 1)?;
    put_number(steps, z)?;
    put_number(steps, z + 1)
}

/// Adds a number, if it is an integer of the language.
fn put_number(steps: &mut Vec<i32>, z: i64) -> Result<(), AllocError>
    ensures { OnOk result (steps.new.items ≡ (if is_number z then spec.put_in steps.old.items z else steps.old.items)) }
{
    if -MAXINT <= z && z <= MAXINT {
        put_in(steps, z as i32)?;
    }
    Ok(())
}

/// Adds a step in its place, if it isn't there. The time is linear in the number of steps.
fn put_in(steps: &mut Vec<i32>, z: i32) -> Result<(), AllocError>
    ensures { OnOk result (steps.new.items ≡ spec.put_in steps.old.items z) }
{
    match place_of(steps, z) {
        None => steps.push(z)?,
        Some(place) if steps[place] == z => {}
        Some(place) => steps.insert(place, z)?,
    }
    Ok(())
}

/// The place of the first step that isn't less than `z`.
fn place_of(steps: &[i32], z: i32) -> Option<usize>
    ensures { result ≡ position (λ y. int_le z y) steps.now }
{
    steps.iter().position(|y| *y >= z)
}
