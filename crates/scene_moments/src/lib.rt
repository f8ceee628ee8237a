// When the interrupt comes if the menu's handler runs at some moment, on which line that is, and what it means for the window.
#![tactic(auto)]

pub mod lines;
pub mod moment;
pub mod verdict;

pub use lines::Screen;
pub use moment::{Came, Moment};
pub use verdict::{Mark, Seen, Verdict, Window};
