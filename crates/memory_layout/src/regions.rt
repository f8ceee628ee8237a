// The layout: how long each region is, which buffer it lies in and where it starts.
ghost use Rattle.std.specs.Prelude.{◌≡◌, ◌≤◌, cond, IfOk, IfSome, IsSome, IsTrue, ◌↔◌};
ghost use Rattle.base_shared.specs.Numbers.{answer_number};
ghost use Rattle.base_shared.specs.Refusals.{first_failing};
ghost use Rattle.memory_layout.specs.Entries.{entry_in_range};
ghost use Rattle.memory_layout.specs.Required.{Limits};
ghost use Rattle.memory_layout.specs.Layout.{changing_chr, changing_length, ciram_bytes, fixed_chr, fixed_length, layout_checks, lengths_fit, region, whole_pages, within_limits};

use base_shared::Refusal;
use memory_pages::Page;

// Byte lengths as the cartridge states them.
#[repr(C)]
#[derive(Clone, Copy, Debug, Default, PartialEq, Eq)]
pub struct MemoryLayout {
    pub prg_rom: u32,
    pub chr: u32,
    pub chr_writable: bool,
    pub prg_ram: u32,
    // 0 means 2,048.
    pub ciram: u32,
}

// Which backing region a mapping refers to.
#[derive(Clone, Copy, Debug, PartialEq, Eq)]
pub enum Src {
    PrgRom,
    PrgRam,
    Chr,
    CiRam,
}

// A region of the two buffers, its offsets counted from the fixed one on into the changing one.
#[derive(Clone, Copy, Debug, PartialEq, Eq)]
pub struct Region {
    pub start: u32,
    pub len: u32,
    pub writable: bool,
}

// A layout with no length above its limit. Only such a layout has lengths and regions.
#[derive(Clone, Copy, Debug)]
pub struct LimitedLayout {
    pub layout: MemoryLayout,
    ghost within: { Limits layout },
}

// Every region is a whole number of pages, so a wrapped offset always has a full page behind it.
fn whole_pages(n: u32) -> u32
    requires { n ≤ 262144 }
    ensures { result ≡ whole_pages n }
{
    (n + 1023) / 1024 * 1024
}

impl MemoryLayout {
    pub fn within_limits(self) -> bool
        ensures { result ≡ within_limits self }
    {
        (self.prg_rom <= 262144)
            & (self.chr <= 262144)
            & (self.prg_ram <= 8192)
            & (self.ciram <= 4096)
    }

    // The layout as one within its limits, if it is.
    pub fn limited(self) -> Option<LimitedLayout>
        ensures some { IsSome result ↔ IsTrue (within_limits self) }
        ensures same { IfSome result (λ limited. limited.layout ≡ self) }
    {
        if self.within_limits() {
            Some(LimitedLayout { layout: self })
        } else {
            None
        }
    }

    // The first failing of conditions 1 and 2, for buffers of these lengths.
    pub fn check(self, fixed: usize, changing: usize) -> Result<LimitedLayout, Refusal>
        ensures number { answer_number result ≡ first_failing (layout_checks self fixed changing) }
        ensures same { IfOk result (λ limited. limited.layout ≡ self) }
    {
        let limited = self.limited().ok_or(Refusal::Limits)?;
        if limited.lengths_fit(fixed, changing) {
            Ok(limited)
        } else {
            Err(Refusal::Lengths)
        }
    }
}

impl LimitedLayout {
    fn ciram_bytes(self) -> u32
        ensures { (result ≡ ciram_bytes self.layout) × (result ≤ 4096) }
    {
        match self.layout.ciram {
            0 => 2048,
            given => given,
        }
    }

    // What CHR takes of the changing buffer, or of the fixed one: it lies where its mark says.
    fn chr_in(self, changing: bool) -> u32
        ensures { (result ≡ cond changing (changing_chr self.layout) (fixed_chr self.layout)) × (result ≤ 262144) }
    {
        if self.layout.chr_writable == changing {
            whole_pages(self.layout.chr)
        } else {
            0
        }
    }

    // The length of the fixed buffer.
    pub fn fixed_length(self) -> u32
        ensures { (result ≡ fixed_length self.layout) × (result ≤ 525312) }
    {
        1024 + whole_pages(self.layout.prg_rom) + self.chr_in(false)
    }

    // The length of the changing buffer.
    pub fn changing_length(self) -> u32
        ensures { (result ≡ changing_length self.layout) × (result ≤ 274432) }
    {
        whole_pages(self.layout.prg_ram) + self.chr_in(true) + whole_pages(self.ciram_bytes())
    }

    // Whether buffers of these lengths are the layout's.
    pub fn lengths_fit(self, fixed: usize, changing: usize) -> bool
        ensures { result ≡ lengths_fit self.layout fixed changing }
    {
        (fixed == self.fixed_length() as usize) & (changing == self.changing_length() as usize)
    }

    pub fn region(self, src: Src) -> Region
        ensures { result ≡ region self.layout src }
    {
        match src {
            Src::PrgRom => Region {
                start: 1024,
                len: whole_pages(self.layout.prg_rom),
                writable: false,
            },
            Src::PrgRam => Region {
                start: self.fixed_length(),
                len: whole_pages(self.layout.prg_ram),
                writable: true,
            },
            Src::Chr => self.chr_region(),
            Src::CiRam => Region {
                start: self.fixed_length() + whole_pages(self.layout.prg_ram) + self.chr_in(true),
                len: whole_pages(self.ciram_bytes()),
                writable: true,
            },
        }
    }

    // CHR lies behind PRG RAM if it takes writes, and behind PRG ROM if not.
    fn chr_region(self) -> Region
        ensures { result ≡ region self.layout Src.Chr }
    {
        let len = whole_pages(self.layout.chr);
        if self.layout.chr_writable {
            return Region {
                start: self.fixed_length() + whole_pages(self.layout.prg_ram),
                len,
                writable: true,
            };
        }
        Region {
            start: 1024 + whole_pages(self.layout.prg_rom),
            len,
            writable: false,
        }
    }

    // Whether an entry is one that a board of this layout can hold.
    pub fn entry_in_range(self, page: Page) -> bool
        ensures { result ≡ entry_in_range self.layout page }
    {
        let fixed = self.fixed_length();
        let all = fixed + self.changing_length();
        let at = page.offset();
        let in_fixed = at + 1024 <= fixed;
        let in_changing = (fixed <= at) & (at + 1024 <= all);
        (at % 1024 == 0) & !page.has_spare_bit() & (in_changing | (in_fixed & !page.is_writable()))
    }
}
