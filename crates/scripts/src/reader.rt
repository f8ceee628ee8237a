// The lines of a file, one after the other.
ghost use Rattle.std.specs.Prelude.{◌≤◌};

use crate::error::ScriptError;
use std::io::Read;

// A line that fills the buffer is too long.
const ROOM: usize = 65536;

// The bytes from one place to another are read and not taken yet: places, since a struct can't hold a slice of itself. A line is lent out of
// the buffer, which a BufReader would copy.
#[derive(Drop)]
pub struct Reader {
    input: [u8; ROOM],
    from: usize,
    to: usize,
    ghost order: { from ≤ to },
    ghost within: { to ≤ 65536 },
}

impl Reader {
    pub fn new() -> Reader {
        Reader {
            input: [0; ROOM],
            from: 0,
            to: 0,
        }
    }

    // Reads behind the bytes that are left, which move to the front. Whether more came: an input that can't be read is at its end.
    fn read_more<F: Read>(&mut self, file: &mut F) -> bool {
        let left = self.to - self.from;
        self.input.copy_within(self.from..self.to, 0);
        self.from = 0;
        self.to = left;
        let Ok(n) = file.read(&mut self.input[left..]) else {
            return false;
        };
        if n <= ROOM - left {
            self.to = left + n;
        }
        self.to != left
    }

    // What is left at the file's end.
    fn last(&mut self) -> Option<&[u8]> {
        let from = self.from;
        self.from = self.to;
        if from < self.to {
            Some(&self.input[from..self.to])
        } else {
            None
        }
    }

    // The next line, without its line feed, which the last one may lack; none at the file's end. Each turn reads a byte or more, so
    // there are turns enough.
    pub fn next_line<F: Read>(&mut self, file: &mut F) -> Result<Option<&[u8]>, ScriptError> {
        for _ in 0..=ROOM {
            let from = self.from;
            let left = &self.input[from..self.to];
            if let Some(length) = left.iter().position(|byte| *byte == b'\n') {
                self.from = from + length + 1;
                return Ok(Some(&self.input[from..from + length]));
            }
            if left.len() == ROOM {
                return Err(ScriptError::TooLong);
            }
            if !self.read_more(file) {
                return Ok(self.last());
            }
        }
        Err(ScriptError::TooLong)
    }
}
