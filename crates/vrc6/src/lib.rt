// The VRC6 board: a value that every call takes and hands back, over two lent buffers (tetanes-core's
// m024_m026_vrc6.rs and memory.rs).
//
// A call tests what it checks before anything changes, and is refused by the first failing of the conditions 1, 2, 3 and 4. Refused, it gives the board back as it was, and leaves both buffers alone; only create
// gives the zero board. Both buffers are parameters of their own: C lends them so, and a read borrows both while a write changes one.
#![tactic(auto)]

pub mod board;
pub mod clocks;
pub mod create;
pub mod reads;
pub mod writes;

pub use board::Board;
