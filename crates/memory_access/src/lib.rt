// One access to the two lent buffers through an entry: check, byte, store and view (tetanes-core's memory.rs, `prg_peek`,
// `prg_write`, `chr_peek`, `chr_write`). An access has the parts of a board that it needs, layout and entry; `byte_shown` and `store`
// check nothing. Both buffers are parameters of their own: C lends them so, and a read borrows both while a write changes one.
#![tactic(auto)]

ghost use Rattle.std.specs.Prelude.{◌≡◌, ◌++◌, ◌+◌, ◌≤◌, ◌<◌, IfOk, get_or, length, true};
ghost use Rattle.base_shared.specs.Numbers.{answer_number};
ghost use Rattle.memory_pages.specs.Pages.{offset};
ghost use Rattle.memory_access.specs.Access.{access_refusal, answered, byte_at, peeked, plain_refusal, stored, viewed, written};
ghost use Rattle.memory_access.specs.Required.{Placed};

use base_shared::Refusal;
use memory_layout::MemoryLayout;
use memory_pages::Page;

// The byte at a place counted from the fixed buffer on into the changing one. `view` takes such a place apart by `checked_sub` too:
// a function that both call would be that call.
fn byte_at(fixed: &[u8], changing: &[u8], at: usize) -> u8
    requires { at < length fixed.now + length changing.now }
    ensures { result ≡ get_or (fixed.now ++ changing.now) at 0 }
{
    match at.checked_sub(fixed.len()) {
        None => fixed[at],
        Some(rest) => changing[rest],
    }
}

// The byte that addr shows through an entry that is checked already.
pub fn byte_shown(page: Page, fixed: &[u8], changing: &[u8], addr: u16) -> u8
    requires { offset page + 1024 ≤ length fixed.now + length changing.now }
    ensures { result ≡ byte_at page fixed.now changing.now addr }
{
    let at = page.offset() as usize + (addr % 1024) as usize;
    byte_at(fixed, changing, at)
}

// A byte that was asked for, 0 where it is refused, and the refusal's number, as C reads it.
#[repr(C)]
#[derive(Clone, Copy, Debug, PartialEq, Eq)]
pub struct Peeked {
    pub byte: u8,
    pub refusal: u8,
}

impl From<Result<u8, Refusal>> for Peeked {
    ghost from_gives = { λ answer peeked. peeked ≡ answered answer };

    fn from(answer: Result<u8, Refusal>) -> Peeked {
        match answer {
            Ok(byte) => Peeked { byte, refusal: 0 },
            Err(refusal) => Peeked {
                byte: 0,
                refusal: u8::from(refusal),
            },
        }
    }
}

// Stores a byte through an entry that is checked already; fixed is the fixed buffer's length.
pub fn store(page: Page, fixed: usize, changing: &mut [u8], addr: u16, val: u8)
    requires { Placed fixed page changing.old }
    ensures { changing.new ≡ stored fixed page changing.old addr val }
{
    if page.is_writable() {
        let at = page.offset() as usize - fixed + (addr % 1024) as usize;
        changing[at] = val;
    }
}

// A page of a board, and the layout whose buffers it lies in.
#[derive(Clone, Copy, Debug, PartialEq, Eq)]
pub struct Access {
    pub layout: MemoryLayout,
    pub page: Page,
}

impl Access {
    // What a call through the page checks, for buffers of these lengths.
    pub fn check(self, fixed: usize, changing: usize) -> Result<(), Refusal>
        ensures { answer_number result ≡ access_refusal self.layout self.page fixed changing true }
    {
        let limited = self.layout.check(fixed, changing)?;
        if limited.entry_in_range(self.page) {
            Ok(())
        } else {
            Err(Refusal::Range)
        }
    }

    // The byte that addr shows through the page.
    pub fn peek(self, fixed: &[u8], changing: &[u8], addr: u16) -> Result<u8, Refusal>
        ensures { answered result ≡ peeked self.layout self.page fixed.now changing.now addr }
    {
        self.check(fixed.len(), changing.len())?;
        Ok(byte_shown(self.page, fixed, changing, addr))
    }

    // Writes a byte to addr through the page.
    pub fn write(self, fixed: &[u8], changing: &mut [u8], addr: u16, val: u8) -> Result<(), Refusal>
        ensures value { answer_number result ≡ plain_refusal self.layout self.page fixed.now changing.old }
        ensures changing_after { changing.new ≡ written self.layout self.page fixed.now changing.old addr val }
    {
        self.check(fixed.len(), changing.len())?;
        store(self.page, fixed.len(), changing, addr, val);
        Ok(())
    }

    // Lends back the page's 1,024 bytes, from whichever buffer it points into.
    pub fn view<'a>(self, fixed: &'a [u8], changing: &'a [u8]) -> Result<&'a [u8], Refusal>
        ensures number { answer_number result ≡ plain_refusal self.layout self.page fixed.now changing.now }
        ensures bytes { IfOk result (λ lent. lent.now ≡ viewed self.layout self.page fixed.now changing.now) }
    {
        self.check(fixed.len(), changing.len())?;
        let at = self.page.offset() as usize;
        match at.checked_sub(fixed.len()) {
            None => Ok(&fixed[at..at + 1024]),
            Some(from) => Ok(&changing[from..from + 1024]),
        }
    }
}
