// The calls that change nothing: CPU read, picture read, page view. What they do they do with the board lent, which copies no table; the
// calls by value hand the board back beside the answer.
ghost use Rattle.std.specs.Prelude.{◌≡◌};
ghost use Rattle.memory_access.specs.Access.{answered};
ghost use Rattle.memory_pages.specs.Pages.{found, serving};
ghost use Rattle.memory_tables.specs.Paging.{cpu, picture};
ghost use Rattle.vrc6_parts.specs.Reads.{by_cpu, by_picture};
ghost use Rattle.vrc6.specs.Boards.{access_of, held_by};
ghost use Rattle.vrc6.specs.Calls.{byte_read, page_view, page_view_refusal, read_by};

use crate::board::{Board, ByteRead};
use base_shared::{Refusal, answer_number};
use memory_access::{Access, Peeked, byte_shown};
use memory_pages::Page;
use memory_tables::entry_for;

// The page that a picture read serves: what the lookup of its entry finds, or where nothing is there the unmapped one.
fn served(entry: Page) -> Page
    ensures { result ≡ serving (found entry) }
{
    entry.lookup().unwrap_or(Page::UNMAPPED)
}

impl Board {
    // What a CPU address accesses, its entry read where it lies in the table. This and the next have `entry_for` in common, and the table is
    // all in which they differ.
    pub fn cpu_access(&self, addr: u16) -> Access
        ensures { result ≡ access_of cpu self.now addr }
    {
        Access {
            layout: self.layout,
            page: entry_for(&self.prg_pages, addr),
        }
    }

    // What a picture address accesses.
    pub fn picture_access(&self, addr: u16) -> Access
        ensures { result ≡ access_of picture self.now addr }
    {
        Access {
            layout: self.layout,
            page: entry_for(&self.chr_pages, addr),
        }
    }

    // With the setting on, a read where nothing is there hands back bus, the byte that the bus last held. Without it an unmapped entry
    // shows the fixed buffer's first page, which creation wants zero.
    pub fn lent_cpu_read(
        &self,
        fixed: &[u8],
        changing: &[u8],
        addr: u16,
        bus: u8,
    ) -> Result<u8, Refusal>
        ensures { answered result ≡ read_by (by_cpu bus) (held_by self.now fixed.now changing.now) addr }
    {
        let access = self.cpu_access(addr);
        access.check(fixed.len(), changing.len())?;
        if self.open_bus & access.page.lookup().is_none() {
            return Ok(bus);
        }
        Ok(byte_shown(access.page, fixed, changing, addr))
    }

    // The picture side has no open bus: an unmapped entry shows the page of zeros, with the setting too.
    #[tactic(auto, using(memory_pages::proofs::Entries::lookup_law))]
    pub fn lent_picture_read(&self, fixed: &[u8], changing: &[u8], addr: u16) -> Result<u8, Refusal>
        ensures { answered result ≡ read_by by_picture (held_by self.now fixed.now changing.now) addr }
    {
        let access = self.picture_access(addr);
        let page = served(access.page);
        Access { page, ..access }.peek(fixed, changing, addr)
    }

    // The calls by value are two lines each: what the lent one answers, and the board beside it.
    pub fn cpu_read(self, fixed: &[u8], changing: &[u8], addr: u16, bus: u8) -> ByteRead
        ensures { result ≡ byte_read (by_cpu bus) (held_by self fixed.now changing.now) addr }
    {
        let answer = self.lent_cpu_read(fixed, changing, addr, bus);
        self.byte_read(answer)
    }

    pub fn picture_read(self, fixed: &[u8], changing: &[u8], addr: u16) -> ByteRead
        ensures { result ≡ byte_read by_picture (held_by self fixed.now changing.now) addr }
    {
        let answer = self.lent_picture_read(fixed, changing, addr);
        self.byte_read(answer)
    }

    // A read's byte or refusal as its answer.
    fn byte_read(self, answer: Result<u8, Refusal>) -> ByteRead
        ensures { result ≡ record { board = self; byte = (answered answer).byte; refusal = (answered answer).refusal } }
    {
        let peeked = Peeked::from(answer);
        ByteRead {
            board: self,
            byte: peeked.byte,
            refusal: peeked.refusal,
        }
    }

    // Lends back the 1,024 bytes of whichever buffer the picture entry points into; refused, none.
    pub fn page_view<'a>(self, fixed: &'a [u8], changing: &'a [u8], addr: u16) -> &'a [u8]
        ensures { result.now ≡ page_view (held_by self fixed.now changing.now) addr }
    {
        let lent = self.picture_access(addr).view(fixed, changing);
        lent.unwrap_or(&[])
    }

    // The number of page_view's refusal, on the same arguments.
    pub fn page_view_refusal(self, fixed: &[u8], changing: &[u8], addr: u16) -> u8
        ensures { result ≡ page_view_refusal (held_by self fixed.now changing.now) addr }
    {
        answer_number(self.picture_access(addr).check(fixed.len(), changing.len()))
    }
}
