//! The lines of a report.
ghost use Rattle.std.specs.Prelude.{◌≡◌, ◌++◌, ◌<◌, All, OnOk, length};
ghost use Rattle.std.specs.List.{flat_map, zip};
ghost use Rattle.control_points.specs.Chart.{place_of_point};
ghost use Rattle.report.specs.Conditions.{IsOf};
ghost use Rattle.report.specs.Report as spec;

use crate::condition::{Condition, Demand};
use crate::counts::Counts;
use crate::page::Page;
use crate::source::Source;
use control_points::{Check, Flow};
use interp::kind_text;
use std::alloc::AllocError;

/// A line for each condition.
pub(crate) fn put_conditions(
    page: &mut Page,
    source: &Source,
    conditions: &[Condition],
) -> Result<(), AllocError>
    requires { All (IsOf source.now.flow.now) conditions.now }
    ensures { OnOk result (page.new.bytes.items ≡ page.old.bytes.items ++ flat_map (spec.condition_line source.now.text.now source.now.flow.now) conditions.now) }
{
    for condition in conditions {
        put_condition(page, source, condition)?;
    }
    Ok(())
}

/// `condition LINE:COL NAME in LO..HI`
fn put_condition(page: &mut Page, source: &Source, condition: &Condition) -> Result<(), AllocError>
    requires { IsOf source.now.flow.now condition.now }
    ensures { OnOk result (page.new.bytes.items ≡ page.old.bytes.items ++ spec.condition_line source.now.text.now source.now.flow.now condition.now) }
{
    page.put("condition ")?;
    source.put_place(page, place_of(source.flow, condition.point))?;
    page.put(" ")?;
    source.put_name(page, condition.var)?;
    page.put(part_word(condition.of_part))?;
    put_demand(page, source, condition.var, condition.demand)?;
    page.put("\n")
}

/// The place of a point.
fn place_of(flow: &Flow, point: u32) -> u32
    requires { point < length flow.now.points }
    ensures { result ≡ place_of_point flow.now.points point }
{
    flow.points()[point as usize].at
}

/// What stands behind the name of a variable, of which a part may be meant.
fn part_word(of_part: bool) -> &'static str
    ensures { result.now ≡ spec.part_word of_part }
{
    if of_part { "[] " } else { " " }
}

/// What is demanded of a variable.
fn put_demand(page: &mut Page, source: &Source, var: u32, demand: Demand) -> Result<(), AllocError>
    requires { var < length source.now.flow.now.program.vars }
    ensures { OnOk result (page.new.bytes.items ≡ page.old.bytes.items ++ spec.demand_text source.now.text.now source.now.flow.now var demand) }
{
    match demand {
        Demand::Holds(v) => source.put_value(page, var, v),
        Demand::OffTheWay => page.put("not on the way"),
    }
}

/// A line for each check, of which the list says whether it may fail.
pub(crate) fn put_checks(
    page: &mut Page,
    source: &Source,
    may_fail: &[bool],
) -> Result<(), AllocError>
    ensures { OnOk result (page.new.bytes.items ≡ page.old.bytes.items ++ flat_map (spec.check_line source.now.text.now source.now.flow.now) (zip source.now.flow.now.checks may_fail.now)) }
{
    for (check, is_open) in source.flow.checks().iter().zip(may_fail) {
        put_check(page, source, check, *is_open)?;
    }
    Ok(())
}

/// `check LINE:COL KIND open`
fn put_check(
    page: &mut Page,
    source: &Source,
    check: &Check,
    is_open: bool,
) -> Result<(), AllocError>
    ensures { OnOk result (page.new.bytes.items ≡ page.old.bytes.items ++ spec.check_line source.now.text.now source.now.flow.now (check.now, is_open)) }
{
    page.put("check ")?;
    source.put_place(page, check.at)?;
    page.put(" ")?;
    page.put(kind_text(check.kind))?;
    page.put(if is_open { " open\n" } else { " needless\n" })
}

/// `total N conditions, N needless, N open`
pub(crate) fn put_total(page: &mut Page, counts: Counts) -> Result<(), AllocError>
    ensures { OnOk result (page.new.bytes.items ≡ page.old.bytes.items ++ spec.total_line counts) }
{
    page.put("total ")?;
    put_count(page, counts.conditions, " conditions, ")?;
    put_count(page, counts.needless, " needless, ")?;
    put_count(page, counts.open_checks, " open\n")
}

fn put_count(page: &mut Page, n: usize, word: &str) -> Result<(), AllocError>
    ensures { OnOk result (page.new.bytes.items ≡ page.old.bytes.items ++ spec.count_text n word.now) }
{
    page.put_number(n)?;
    page.put(word)
}
