// What the cells of a row say by one word, beside the cartridge file that the row names.
#![tactic(auto)]

pub mod filed;
pub mod singles;
