/// A node of a graph: a class, and a point of its routine.
#[derive(Clone, Copy, Debug, PartialEq, Eq)]
pub(crate) struct Node {
    pub class: u32,
    pub point: u32,
}
