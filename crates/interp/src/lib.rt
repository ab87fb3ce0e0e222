//! Runs a program on an input, step by step.
//!
//! `Machine` is at each moment in one state of a run, and each call of `step` leads it to the next one. What a state and a
//! step are is said by the definitions of `control_points`; the machine keeps all variables of all activations in one list
//! of scalars. `run` makes a whole run of at most so many steps, and `text` is what the user is shown of it.
#![tactic(auto)]

mod call;
mod decide;
mod evaluate;
mod frame;
mod items;
mod land;
mod layout;
mod machine;
mod running;
mod shown;
mod stepping;
mod transput;
mod write;

pub use control_points::Item;
pub use items::items_of;
pub use machine::{Machine, Progress};
pub use running::{Ended, Ending, run};
pub use shown::{kind_text, text};
