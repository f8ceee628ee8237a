// Which bank a slot of the picture side shows.
#![tactic(auto)]

ghost use Rattle.std.specs.Prelude.{◌≡◌};
ghost use Rattle.scene_banks.specs.Shown.{bank_at, bank_shown};

use memory_layout::{MemoryLayout, Region, Src};
use memory_pages::Page;

// The bank of 1 KiB, counted from the start of CHR, that an offset lies in.
fn bank_at(chr: Region, at: u32) -> Option<u32>
    ensures { result ≡ bank_at chr at }
{
    let far = at.checked_sub(chr.start)?;
    if far < chr.len {
        Some(far / 1024)
    } else {
        None
    }
}

// The bank that an entry shows, if it shows one of CHR.
pub fn bank_shown(layout: MemoryLayout, page: Page) -> Option<u32>
    ensures { result ≡ bank_shown layout page }
{
    bank_at(layout.limited()?.region(Src::Chr), page.offset())
}
