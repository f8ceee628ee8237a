// What the words in the cells of a scene say: the steps, the pairs of the letters, and where the writes end.
#![tactic(auto)]

mod hex;
pub mod letters;
pub mod picture;
pub mod step;

pub use step::Step;
