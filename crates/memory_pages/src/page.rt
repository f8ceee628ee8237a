// A page entry. It has a type of its own, so that it is never taken for an offset or a bank number.
ghost use Rattle.std.specs.Prelude.{◌≡◌, ◌+◌, ◌*◌, ◌^◌, ◌<◌};
ghost use Rattle.memory_pages.specs.Pages.{bits, entry, found, is_unmapped, page_of_bits, offset, pages_on, spare, writable};

// Bits 0 to 29 hold an offset into the buffers, bit 31 says that the page takes writes, bit 30 is clear.
#[repr(C)]
#[derive(Clone, Copy, Debug, PartialEq, Eq)]
pub struct Page(u32);

impl Page {
    // Shows the page of zeros, ignores writes.
    pub const UNMAPPED: Page = Page(0);

    pub fn new(offset: u32, writable: bool) -> Page
        ensures { result ≡ entry offset writable }
    {
        let at = offset % 0x4000_0000;
        if writable {
            return Page(at + 0x8000_0000);
        }
        Page(at)
    }

    pub fn is_unmapped(self) -> bool
        ensures { result ≡ is_unmapped self }
    {
        self.0 == 0
    }

    pub fn offset(self) -> u32
        ensures { result ≡ offset self }
    {
        self.0 % 0x4000_0000
    }

    // One line, like the test below: base_shared's `bit` takes a byte.
    pub fn is_writable(self) -> bool
        ensures { result ≡ writable self }
    {
        self.0 / 0x8000_0000 % 2 == 1
    }

    // Bit 30, which no entry that a board makes has set.
    pub fn has_spare_bit(self) -> bool
        ensures { result ≡ spare self }
    {
        self.0 / 0x4000_0000 % 2 == 1
    }

    // The entry n pages on in the buffers, with the same mark.
    pub fn pages_on(self, n: u32) -> Page
        requires { offset self + 1024 * n < 2 ^ 30 }
        ensures { result ≡ pages_on self n }
    {
        Page(self.0 + 1024 * n)
    }

    // The entry, or None if it is unmapped, so that a caller can give that a meaning of its own.
    pub fn lookup(self) -> Option<Page>
        ensures { result ≡ found self }
    {
        if self.is_unmapped() { None } else { Some(self) }
    }
}

// The entry as document 01 writes it: the offset in bits 0 to 29, writable in bit 31.
impl From<Page> for u32 {
    ghost from_gives = { λ page n. n ≡ bits page };

    fn from(page: Page) -> u32 {
        page.0
    }
}

// The entry that document 01 writes so.
impl From<u32> for Page {
    ghost from_gives = { λ n page. page ≡ page_of_bits n };

    fn from(bits: u32) -> Page {
        Page(bits)
    }
}
