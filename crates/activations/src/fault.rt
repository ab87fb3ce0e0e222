use std::alloc::AllocError;
use thiserror::Error;

/// Why a program has no unfolding.
#[derive(Debug, Drop, Error)]
pub enum UnfoldFault {
    /// The sizes of its classes, added in their order, pass 4,000,000 first with this sum.
    #[error("too many cells: {cells}")]
    TooMany { cells: u64 },
    /// There was too little memory.
    #[error("memory is lacking")]
    Memory(AllocError),
}
