// The two tables: which entry serves an address (tetanes-core's memory.rs). Which pages the entries of a table show is said by its
// windows (specs/Paging.antt); all of them are made anew at once, and not window by window as by the Rust's `map_prg`, `unmap_prg` and
// `map_chr` (crates/vrc6_tables).
//
// An access is then a table lookup and an indexed load. The CPU's 64 KiB take 64 entries, the picture side's 16 KiB
// take 16.
#![tactic(auto)]

ghost use Rattle.std.specs.Prelude.{◌≡◌, ◌<◌};
ghost use Rattle.memory_tables.specs.Paging.{entry_among};

use memory_pages::Page;

// The entry that serves an address, in a table of N entries: the CPU's of 64 or the picture side's of 16.
pub fn entry_for<const N: usize>(pages: &[Page; N], addr: u16) -> Page
    requires { 0 < N }
    ensures { result ≡ entry_among N pages.now addr }
{
    pages[(addr / 1024) as usize % N]
}
