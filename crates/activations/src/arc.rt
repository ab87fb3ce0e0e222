/// A way from a node to a node, by an edge of the control-flow graph.
#[derive(Clone, Copy, Debug, PartialEq, Eq)]
pub struct Arc {
    /// The node whose action it is; for a return the node of the call.
    pub from: u32,
    pub to: u32,
    pub edge: u32,
    /// For a return the node of the callee's exit.
    pub other: Option<u32>,
    /// For a call and its return the number of the pair of calling class and site, and else 0.
    pub call: u32,
}
