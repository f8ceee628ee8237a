// Some clocks of the interrupt counter at once. Its specs say what n clocks leave and what the forecast says of them.
#![tactic(auto)]

pub mod clocks;
