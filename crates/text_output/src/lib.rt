// Text into a buffer, which is written out when it is full. What can't be written is dropped.
#![tactic(auto)]

ghost use Rattle.std.specs.Prelude.{◌≡◌, ◌+◌, ◌≤◌, ◌<◌, ℕ, List, [], ◌∷◌, ◌++◌, length, take, OnOk};
ghost use Rattle.std.specs.Fmt.{WritesText};
ghost use Rattle.text_output.specs.Appends.{appends, waiting};

use std::fmt;
use std::fmt::Display;
use std::io::{Print, Stdout};
use std::marker::Model;

pub const ROOM: usize = 65536;

// The bytes that wait in a buffer, and where they are written out. The buffer lies in the value: a BufWriter takes memory, and so no
// program could begin to print without an error to tell.
#[derive(Drop)]
pub struct Output {
    bytes: [u8; ROOM],
    len: usize,
    stdout: Stdout,
}

// The bytes that wait.
impl Model for Output {
    ghost Value = { List ℕ };

    ghost view = { λ o. take o.len o.bytes };

    ghost invariant = { λ o. o.len ≤ 65536 };
}

impl Output {
    pub fn new(stdout: Stdout) -> Output
        ensures { result ≡ [] }
    {
        Output {
            bytes: [0; ROOM],
            len: 0,
            stdout,
        }
    }

    // Writes out what the buffer holds.
    pub fn flush(&mut self)
        ensures { self.new ≡ [] }
    {
        let all: &[u8] = &self.bytes;
        let _ = self.stdout.write_all(&all[..self.len]);
        self.len = 0;
    }

    pub fn put(&mut self, byte: u8)
        ensures waits { length self.old < 65536 → self.new ≡ self.old ++ byte ∷ [] }
        ensures follows { length self.old ≡ 65536 → self.new ≡ byte ∷ [] }
    {
        if self.len == ROOM {
            self.flush();
        }
        self.bytes[self.len] = byte;
        self.len += 1;
    }

    // Bytes that fit behind those that wait.
    #[inline(always)]
    fn append(&mut self, bytes: &[u8])
        requires { length self.old + length bytes.now ≤ 65536 }
        ensures { self.new ≡ self.old ++ bytes.now }
    {
        let end = self.len + bytes.len();
        self.bytes[self.len..end].copy_from_slice(bytes);
        self.len = end;
    }

    // Bytes that may not fit: as with bytes that are put one by one, a buffer is written out whole, as soon as a byte follows that it has
    // no room for. Out of line, so that a text that fits, as most do, is stored at once.
    #[inline(never)]
    fn fill(&mut self, bytes: &[u8])
        ensures { self.new ≡ waiting (self.old ++ bytes.now) }
    {
        let mut rest = bytes;
        while ROOM - self.len < rest.len() {
            let (first, behind) = rest.split_at(ROOM - self.len);
            self.append(first);
            self.flush();
            rest = behind;
        }
        self.append(rest);
    }

    // Bytes of any kind, as those of a name or a cell, as if each were put.
    pub fn put_all(&mut self, bytes: &[u8])
        ensures waits { length self.old + length bytes.now ≤ 65536 → self.new ≡ self.old ++ bytes.now }
        ensures goes_on { self.new ≡ waiting (self.old ++ bytes.now) }
    {
        if ROOM - self.len < bytes.len() {
            self.fill(bytes);
        } else {
            self.append(bytes);
        }
    }

    // Bytes that stay together: where there is no room for all of them, those that wait are written out before them, and more than the
    // buffer holds are written out at once. `put_all` fills the buffer first.
    pub fn text(&mut self, bytes: &[u8])
        ensures waits { length self.old + length bytes.now ≤ 65536 → self.new ≡ self.old ++ bytes.now }
        ensures follows { 65536 < length self.old + length bytes.now → length bytes.now ≤ 65536 → self.new ≡ bytes.now }
        ensures passes { 65536 < length bytes.now → self.new ≡ [] }
    {
        let fits = bytes.len() <= ROOM - self.len;
        if !fits {
            self.flush();
        }
        if ROOM < bytes.len() {
            let _ = self.stdout.write_all(bytes);
            return;
        }
        self.put_all(bytes);
    }

    // What `put!` calls.
    pub fn print<D: Display + Drop>(&mut self, value: D) -> fmt::Result
        ensures { OnOk result (WritesText appends self.old (D.output value) self.new) }
    {
        fmt::Write::write(self, value)
    }
}

impl fmt::Write for Output {
    ghost write_str_gives = { appends };

    fn write_str(&mut self, text: &str) -> fmt::Result {
        self.put_all(text.as_bytes());
        Ok(())
    }
}

// Prints a format, as `put!(out; "{x} bytes\n")`.
#[macro_export]
macro_rules! put {
    ($out:expr; $($arg:tt)+) => {{
        let _ = $out.print(format_args!($($arg)+));
    }};
}

#[cfg(test)]
mod tests {
    use super::Output;

    // What is written out is in no contract, and no test sees it: this one prints a line.
    #[test]
    fn prints_a_text(rt: HostRuntime) {
        let mut out = Output::new(rt.stdout());
        out.text(b"story");
        out.text(b" two\n");
        assert_eq!(rt; out.bytes[..out.len], *b"story two\n".as_slice());
        out.flush();
        assert_eq!(rt; out.len, 0);
    }
}
