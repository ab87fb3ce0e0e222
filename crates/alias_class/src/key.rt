use crate::bind::Bind;

/// What tells a class from the others. That of the program's block has none.
#[derive(Debug, Drop, PartialEq, Eq, Hash)]
pub(crate) struct Key {
    /// The class of the static parent.
    pub parent: u32,
    pub routine: u32,
    /// The edge of the call.
    pub site: u32,
    /// What each variable parameter is bound to, in order.
    pub bindings: Vec<Bind>,
}
