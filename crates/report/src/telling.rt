//! The report of an analysis.
ghost use Rattle.std.specs.Prelude.{◌≡◌, ◌++◌, ◌≤◌, IfOk, OnOk, codes, length};
ghost use Rattle.transfer_fwd.specs.Systems.{environments};
ghost use Rattle.report.specs.Nodes.{AreTables};
ghost use Rattle.report.specs.Report as spec;

use crate::conditions::{conditions, is_possible};
use crate::counts::counted;
use crate::lines::{put_checks, put_conditions, put_total};
use crate::nodes::Nodes;
use crate::page::Page;
use crate::places::places_of;
use crate::points::put_points;
use crate::source::Source;
use crate::verdicts::open_checks;
use activations::Graph;
use control_points::Flow;
use environment::Env;
use std::alloc::{AllocError, Global};

/// The report of an analysis of the program in a text: the conditions on the values that are read, a line for each check, with `all_points`
/// what each visible variable may hold at each point, and the counts. `plain` says what holds whenever a run stands at a node, and `way` what
/// holds there on the way of a good run.
///
/// # Errors
///
/// Want of memory.
pub fn report(
    alloc: Global,
    text: &[u8],
    name: &str,
    flow: &Flow,
    graph: &Graph,
    plain: &[Env],
    way: &[Env],
    all_points: bool,
) -> Result<Vec<u8>, AllocError>
    requires small { length text.now ≤ 1048576 }
    requires tables { AreTables flow.now graph.now (environments plain.now) (environments way.now) }
    ensures { IfOk result (λ bytes. bytes.items ≡ spec.report_text text.now flow.now graph.now (environments plain.now) (environments way.now) name.now all_points) }
{
    let nodes = Nodes::of(alloc, flow, graph)?;
    let places = places_of(alloc, text)?;
    let source = Source {
        text,
        places: &places,
        flow,
    };
    let conditions = conditions(alloc, &nodes, plain, way)?;
    let may_fail = open_checks(alloc, &nodes, plain)?;
    let mut page = Page::new(alloc);
    put_head(&mut page, name, is_possible(way))?;
    put_conditions(&mut page, &source, &conditions)?;
    put_checks(&mut page, &source, &may_fail)?;
    if all_points {
        put_points(alloc, &mut page, &source, &nodes, way)?;
    }
    put_total(&mut page, counted(&conditions, flow.checks(), &may_fail))?;
    Ok(page.bytes)
}

/// The lines `file` and `origin`.
fn put_head(page: &mut Page, name: &str, is_possible: bool) -> Result<(), AllocError>
    ensures { OnOk result (page.new.bytes.items ≡ page.old.bytes.items ++ spec.head_text name.now is_possible) }
{
    page.put("file ")?;
    page.put(name)?;
    page.put(origin_text(is_possible))
}

fn origin_text(is_possible: bool) -> &'static str
    ensures { result.now ≡ spec.origin_text is_possible }
{
    if is_possible {
        "\norigin possible\n"
    } else {
        "\norigin no good run\n"
    }
}
