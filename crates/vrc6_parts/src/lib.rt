// What create checks of a layout and its buffers, without a board.
#![tactic(auto)]

pub mod create;
