use px_base::Kind;

/// An error of a run: what went wrong, and its place in the source.
#[derive(Clone, Copy, Debug, PartialEq, Eq)]
pub struct Fault {
    pub kind: Kind,
    pub at: u32,
}
