use std::alloc::AllocError;

/// Why parts make no program.
#[derive(Debug, Drop)]
pub enum Refusal {
    /// They are not valid.
    Invalid,
    Memory(AllocError),
}
