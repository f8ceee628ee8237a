// A region as a ring of pages: behind its last page comes its first. For windows of whole pages this is the paging rule.
ghost use Rattle.std.specs.Prelude.{◌≡◌, ◌+◌, ◌%◌, ◌<◌, length};
ghost use Rattle.base_shared.specs.Lists.{tabulate};
ghost use Rattle.memory_rule.specs.Required.{Closed, Whole, ring_of, ring_page};

use crate::bank_count;
use memory_layout::Region;
use memory_pages::Page;

// Definitions and laws speak of rings of any region, also of one that no layout has, and so of plain ones (specs/Required.antt).
#[derive(Clone, Copy, Debug, PartialEq, Eq)]
pub struct PageRing {
    pub first: Page,
    // How many pages there are, at least 1.
    pub count: u32,
    ghost closed: { Closed first count },
}

impl PageRing {
    ghost use Rattle.memory_rule.specs.Rings.{ring};

    // Shows the page of zeros all round.
    pub const UNMAPPED: PageRing = PageRing {
        first: Page::UNMAPPED,
        count: 1,
    };

    pub fn of(region: Region) -> PageRing
        requires { Whole region }
        ensures { ring result ≡ ring_of region }
    {
        if region.len == 0 {
            return PageRing::UNMAPPED;
        }
        PageRing {
            first: Page::new(region.start, region.writable),
            count: bank_count(region, 1024),
        }
    }

    // Counts n pages round the ring.
    fn round(self, n: u32) -> u32
        ensures { (result ≡ n % self.count) × (result < self.count) }
    {
        // The usual number is below the count, and then a division is saved.
        if n < self.count {
            return n;
        }
        n % self.count
    }

    // Page n, counted round the ring.
    pub fn page(self, n: u32) -> Page
        ensures { result ≡ ring_page (ring self) n }
    {
        self.first.pages_on(self.round(n))
    }

    // The number of the page behind page n.
    fn behind(self, n: u32) -> u32
        requires { n < self.count }
        ensures { (result ≡ (n + 1) % self.count) × (result < self.count) }
    {
        let next = n + 1;
        if next < self.count {
            return next;
        }
        0
    }

    // A page in each entry, round the ring from its first.
    pub fn show(self, window: &mut [Page])
        ensures { window.new ≡ tabulate (length window.old) (ring_page (ring self)) }
    {
        // at goes round with the pages. By `page(n)` of `enumerate` both tables took 17 instructions more, and the window's
        // length would have to be asked.
        let mut at = 0;
        for entry in window.iter_mut() {
            *entry = self.first.pages_on(at);
            at = self.behind(at);
        }
    }
}
