//! The links of all calls.

ghost use Rattle.std.specs.Prelude.{◌≡◌, IfOk};
ghost use Rattle.activations.specs.Arcs.{links};
ghost use Rattle.activations.specs.Parts.{IsDiscovery, lists_of};
ghost use Rattle.activations.specs.Unfolding.{unfolding_of};

use crate::discovery::Discovery;
use alias_class::Link;
use control_points::Flow;
use std::alloc::{AllocError, Global};

/// The links of each call, by its number.
pub(crate) fn all_links(
    alloc: Global,
    flow: &Flow,
    found: &Discovery,
) -> Result<Vec<Vec<Link>>, AllocError>
    requires { IsDiscovery flow.now found.now }
    ensures { IfOk result (λ lists. lists_of lists.items ≡ links (unfolding_of flow.now found.now.classes.classes)) }
{
    let mut lists = Vec::with_capacity(alloc, found.calls.len())?;
    for call in &found.calls {
        lists.push(found.classes.links(alloc, flow, call.caller, call.site)?)?;
    }
    Ok(lists)
}
