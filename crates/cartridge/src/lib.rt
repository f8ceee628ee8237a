// The cartridge that a header states: layout, mirroring, revision, and where PRG and CHR begin in the file (tetanes-core's cart.rs).
#![tactic(auto)]

pub mod cartridge;

pub use cartridge::{Cartridge, NesHeader};
