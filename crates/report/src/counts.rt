//! How much a report has to tell.
ghost use Rattle.std.specs.Prelude.{◌≡◌, IfOk};
ghost use Rattle.report.specs.Conditions as spec;
ghost use Rattle.transfer_fwd.specs.Systems.{environments};
ghost use Rattle.report.specs.Nodes.{AreTables};

use crate::condition::Condition;
use crate::conditions::conditions;
use crate::nodes::Nodes;
use crate::verdicts::open_checks;
use activations::Graph;
use control_points::{Check, Flow};
use environment::Env;
use std::alloc::{AllocError, Global};

/// How many conditions a report prints, how many checks are needless, and how many are open.
#[derive(Clone, Copy, Debug, PartialEq, Eq)]
pub struct Counts {
    pub conditions: usize,
    pub needless: usize,
    pub open_checks: usize,
}

/// The counts of the report of an analysis.
///
/// # Errors
///
/// Want of memory.
pub fn counts_of(
    alloc: Global,
    flow: &Flow,
    graph: &Graph,
    plain: &[Env],
    way: &[Env],
) -> Result<Counts, AllocError>
    requires { AreTables flow.now graph.now (environments plain.now) (environments way.now) }
    ensures { IfOk result (λ counts. counts ≡ spec.counts flow.now graph.now (environments plain.now) (environments way.now)) }
{
    let nodes = Nodes::of(alloc, flow, graph)?;
    let conditions = conditions(alloc, &nodes, plain, way)?;
    let may_fail = open_checks(alloc, &nodes, plain)?;
    Ok(counted(&conditions, flow.checks(), &may_fail))
}

/// The counts of conditions and of checks, of which the list says whether each may fail.
pub(crate) fn counted(conditions: &[Condition], checks: &[Check], may_fail: &[bool]) -> Counts
    ensures { result ≡ spec.counted conditions.now checks.now may_fail.now }
{
    let open_checks = may_fail.iter().filter(|is_open| **is_open).count();
    Counts {
        conditions: conditions.len(),
        needless: checks.len().saturating_sub(open_checks),
        open_checks,
    }
}
