//! How the program ends.
use std::alloc::AllocError;

/// How a command ended. Each has a number, with which the process ends.
#[derive(Clone, Copy, Debug, PartialEq, Eq)]
pub enum Status {
    /// The report, the summary or a halted run was written whole.
    Done,
    /// The source was refused; one line went to `err`.
    Refused,
    /// The words were refused; one line went to `err`.
    Usage,
    /// Opening or reading failed; one line went to `err`.
    ReadFault,
    /// Writing to `out` or `err` failed.
    WriteFault,
    /// The interpreted program made an error.
    RunError,
    /// The budget of steps ended first.
    OutOfSteps,
    /// The input of a run is above its limit; one line went to `err`.
    DataTooLarge,
}

/// The number of the answer that memory was lacking.
pub const NO_MEMORY: u8 = 5;

impl Status {
    /// The number with which the process ends.
    pub fn number(self) -> u8 {
        match self {
            Status::Done => 0,
            Status::Refused => 1,
            Status::Usage => 2,
            Status::ReadFault => 3,
            Status::WriteFault => 4,
            Status::RunError => 6,
            Status::OutOfSteps => 7,
            Status::DataTooLarge => 8,
        }
    }
}

/// The number of a command's answer.
pub fn number_of(answer: &Result<Status, AllocError>) -> u8 {
    match answer {
        Ok(status) => status.number(),
        Err(_) => NO_MEMORY,
    }
}
