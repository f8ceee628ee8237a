// The menu at every clock: runs of clocks with one verdict, the moments that are wrong, and the bar.
#![tactic(auto)]

pub mod bar;
pub mod letters;
pub mod runs;
pub mod spans;
pub mod tally;

pub use letters::Met;
pub use runs::{MenuSweep, Run, Sweep};
pub use spans::Span;
pub use tally::{Tally, Wrong};
