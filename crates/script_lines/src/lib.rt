// The lines of a script: what each does, and what is wrong with one.
#![tactic(auto)]

pub mod arguments;
pub mod error;
pub mod line;
pub mod names;
pub mod values;

pub use error::LineError;
pub use line::{CallLine, Line, parse};
