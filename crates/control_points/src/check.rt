use px_base::Kind;

/// A runtime check: the action that leaves `point` may be the error `kind` at the place `at`, or the assertion there may
/// be false.
#[derive(Clone, Copy, Debug, PartialEq, Eq)]
pub struct Check {
    pub kind: Kind,
    pub at: u32,
    pub point: u32,
}
