use crate::Itv;

/// What a cell can hold: whether it may be undefined, and the numbers that it may have.
#[derive(Clone, Copy, Debug, PartialEq, Eq)]
pub struct Val {
    /// Whether it may be undefined.
    pub undef: bool,
    /// The numbers that it may have where it is defined.
    pub itv: Itv,
}

const _: () = prove!(size_of::<Val>() <= 12);
