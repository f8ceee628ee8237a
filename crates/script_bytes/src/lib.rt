// The byte that fills a buffer before a board is created, and the hash by which answers show many bytes.
#![tactic(auto)]

pub mod fill;
pub mod fnv;
