// Entries that point at a page of the board's memory (tetanes-core's memory.rs, `Page`).
//
// 1 KiB is the finest window that a board maps, so an entry points at 1,024 bytes. An unmapped entry is 0: it points at
// the page of zeros that opens the fixed buffer, so that without the bus setting a read needs no case for it.
#![tactic(auto)]

pub mod page;

pub use page::Page;
