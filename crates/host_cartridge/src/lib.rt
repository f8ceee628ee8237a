// A cartridge file for a host: its header as numbers, since no enum crosses to C, and both buffers filled from the file.
#![tactic(auto)]

pub mod encoded;
pub mod filling;

pub use encoded::{EncodedCartridge, encode_header};
pub use filling::fill_from_file;
