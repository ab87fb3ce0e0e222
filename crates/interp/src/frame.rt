/// How much storage an activation has, or where its storage begins.
#[derive(Clone, Copy, Debug, PartialEq, Eq)]
pub(crate) struct Extent {
    /// The scalars of its variables.
    pub scalars: usize,
    /// The places that its variable parameters stand for.
    pub links: usize,
}

/// An activation of a routine (ISO 7185, 6.2.3).
#[derive(Clone, Copy, Debug)]
pub(crate) struct Frame {
    pub routine: usize,
    /// The edge of the call that made it; the program's block has none.
    pub call: Option<u32>,
    /// The depth of the activation within which it lies, by the program's text.
    pub parent: Option<usize>,
    /// Where it stands, and while it waits, where the call stands that it waits for.
    pub point: usize,
    /// Where its storage begins.
    pub base: Extent,
}
