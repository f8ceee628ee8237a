// What scripts ask and print of a board: values by their names, what a call answered, the dump.
#![tactic(auto)]

pub mod channels;
pub mod dump;
pub mod told;
pub mod values;
