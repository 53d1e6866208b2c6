// Decimal numbers as text: reading them from bytes, and writing them as lines of fields.
#![tactic(auto)]

mod lines;
mod reading;

pub use lines::Output;
pub use reading::{Reading, State};
