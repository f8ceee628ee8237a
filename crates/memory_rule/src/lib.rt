// The paging rule: which page of a region each entry of a window shows (tetanes-core's memory.rs, `map_pages`).
#![tactic(auto)]

pub mod rings;

ghost use Rattle.std.specs.Prelude.{◌≡◌, ◌+◌, ◌*◌, ◌^◌, ◌<◌, ◌≤◌, length};
ghost use Rattle.base_shared.specs.Lists.{tabulate};
ghost use Rattle.memory_pages.specs.Pages.{offset, pages_on};
ghost use Rattle.memory_rule.specs.Required.{Mapped, Reach};
ghost use Rattle.memory_rule.specs.Rule.{bank_count, base, rem_euclid, shown};

use memory_layout::Region;
use memory_pages::Page;
use rings::PageRing;

// A bank's number modulo the count of banks, never negative: -1 is the last bank.
fn rem_euclid(bank: i32, banks: u32) -> u32
    requires { (1 ≤ banks) × (banks ≤ 2 ^ 30) }
    ensures { result ≡ rem_euclid bank banks }
{
    match u32::try_from(bank) {
        // The usual number is below the count, and then a division is saved.
        Ok(n) if n < banks => n,
        _ => bank.rem_euclid(banks as i32) as u32,
    }
}

// A window at least as long as the region leaves one bank, so that it repeats the region.
fn bank_count(region: Region, size: u32) -> u32
    requires { 1 ≤ size }
    ensures { result ≡ bank_count region size }
{
    (region.len / size).max(1)
}

// Where a bank begins in its region.
fn bank_base(region: Region, size: u32, bank: i32) -> u32
    requires { Reach region size }
    ensures { (result ≡ base region size bank) × (result ≤ 536870912) }
{
    rem_euclid(bank, bank_count(region, size)) * size
}

// A page in each entry, one behind the other: an entry's number says how many pages on its page lies.
fn follow(window: &mut [Page], first: Page)
    requires { (offset first + 1024 * length window.old < 2 ^ 30) × (length window.old ≤ 16) }
    ensures { window.new ≡ tabulate (length window.old) (pages_on first) }
{
    for (i, entry) in window.iter_mut().enumerate() {
        *entry = first.pages_on(i as u32);
    }
}

// Shows a bank of a region in a window, which has an entry for each of its pages. What it asks of the region is a clause and no ghost
// field of `Region`: of a region that holds the window it asks less than a ring does.
pub fn map_window(window: &mut [Page], region: Region, bank: i32)
    requires { Mapped region (length window.old) }
    ensures { window.new ≡ tabulate (length window.old) (shown region (length window.old * 1024) bank) }
{
    let size = window.len() as u32 * 1024;
    if size <= region.len {
        // The bank ends before its region does, so no page of it wraps.
        let start = region.start + bank_base(region, size, bank);
        follow(window, Page::new(start, region.writable));
    } else {
        // The region is one bank, and the window goes round it.
        PageRing::of(region).show(window);
    }
}
