// The two buffers, and how many of their bytes are lent.
ghost use Rattle.std.specs.Prelude.{◌≤◌};

use memory_layout::MemoryLayout;
use script_bytes::fill::fill;
use script_bytes::fnv::{FNV_START, fnv};
use script_lines::LineError;
use script_lines::line::Bytes;
use script_lines::values::Buffer;
use vrc6::Board;
use vrc6::board::Changed;
use vrc6_banking::banking::Settings;
use vrc6_calls::{Call, Stepped, step};

// A buffer, whose first bytes are lent. No Vec: a script lends fewer bytes and then more, and those between are as they were, so the
// buffer is longer than what is lent; and a script that could run out of memory would be told of it where it now can't be.
#[derive(Drop)]
struct Lent<const N: usize> {
    bytes: [u8; N],
    length: usize,
    ghost within: { length ≤ N },
}

impl<const N: usize> Lent<N> {
    fn none() -> Lent<N> {
        Lent {
            bytes: [0; N],
            length: 0,
        }
    }

    fn bytes(&self) -> &[u8] {
        &self.bytes[..self.length]
    }

    fn bytes_mut(&mut self) -> &mut [u8] {
        let length = self.length;
        let bytes = &mut self.bytes;
        &mut bytes[..][..length]
    }

    // Lends so many bytes from here on, if there are as many.
    fn lend(&mut self, length: u32) -> Result<(), LineError> {
        let length = length as usize;
        if N < length {
            return Err(LineError::TooLarge);
        }
        self.length = length;
        Ok(())
    }
}

// The largest lengths that a layout can ask. A board uses the first bytes of both.
#[derive(Drop)]
pub struct Buffers {
    fixed: Lent<525312>,
    changing: Lent<274432>,
}

impl Buffers {
    pub fn new() -> Buffers {
        Buffers {
            fixed: Lent::none(),
            changing: Lent::none(),
        }
    }

    // The lent bytes of a buffer.
    pub fn lent(&self, buffer: Buffer) -> &[u8] {
        match buffer {
            Buffer::Fixed => self.fixed.bytes(),
            Buffer::Changing => self.changing.bytes(),
        }
    }

    fn lent_mut(&mut self, buffer: Buffer) -> &mut [u8] {
        match buffer {
            Buffer::Fixed => self.fixed.bytes_mut(),
            Buffer::Changing => self.changing.bytes_mut(),
        }
    }

    // Lends so many bytes from here on.
    pub fn lend(&mut self, buffer: Buffer, length: u32) -> Result<(), LineError> {
        match buffer {
            Buffer::Fixed => self.fixed.lend(length),
            Buffer::Changing => self.changing.lend(length),
        }
    }

    // Lends what a layout asks. One above its limits gets no bytes, and create refuses it.
    pub fn lend_layout(&mut self, layout: MemoryLayout) {
        match layout.limited() {
            Some(limited) => {
                self.fixed.length = limited.fixed_length() as usize;
                self.changing.length = limited.changing_length() as usize;
            }
            None => {
                self.fixed.length = 0;
                self.changing.length = 0;
            }
        }
    }

    // Fills the lent bytes, but for the page of zeros.
    fn fill(&mut self, seed: u32) {
        let fixed = self.fixed.bytes_mut();
        let n = fixed.len();
        if n < 1024 {
            return;
        }
        fixed[..1024].fill(0);
        fill(&mut fixed[1024..], 1024, seed);
        let first = (n % 0x1_0000_0000) as u32;
        fill(self.changing.bytes_mut(), first, seed);
    }

    // What the lent bytes are when a board is created.
    pub fn set(&mut self, bytes: Bytes) {
        match bytes {
            Bytes::Zeros => {
                self.fixed.bytes_mut().fill(0);
                self.changing.bytes_mut().fill(0);
            }
            Bytes::Filled(seed) => self.fill(seed),
            Bytes::Kept => {}
        }
    }

    // Puts a byte into a buffer, if it reaches so far; of a number its low bits.
    pub fn poke(&mut self, buffer: Buffer, at: u32, n: u32) {
        if let Some(byte) = self.lent_mut(buffer).get_mut(at as usize) {
            *byte = (n % 256) as u8;
        }
    }

    pub fn hash(&self, buffer: Buffer) -> u32 {
        fnv(FNV_START, self.lent(buffer))
    }

    pub fn create(&self, layout: MemoryLayout, settings: Settings) -> Changed {
        Board::create(layout, settings, self.fixed.bytes(), self.changing.bytes())
    }

    pub fn step(&mut self, board: Board, call: Call) -> Stepped {
        step(board, self.fixed.bytes(), self.changing.bytes_mut(), call)
    }

    // The bytes of a page view, which the call itself lends back.
    pub fn view(&self, board: Board, addr: u16) -> &[u8] {
        board.page_view(self.fixed.bytes(), self.changing.bytes(), addr)
    }
}
