// A file's bytes by its name.
#![tactic(auto)]

ghost use Rattle.std.specs.Prelude.{◌≡◌, ◌≢◌, ◌<◌, ◌≤◌, length, take, IfErr, IfOk};
ghost use Rattle.std.specs.IoError.{error_kind};
ghost use Rattle.std.specs.Io.KnownBytes.{Consumes, IsAtEnd};

use arrayvec::ArrayString;
use std::fmt::Write;
use std::fs::{Files, open};
use std::io::{Error, ErrorKind, Print, Read, Stderr};

// The longest cartridge file that counts: header, trainer, and as much PRG and CHR as a board takes. A longer one is read so far,
// which changes nothing that its header says.
pub const LONGEST: usize = 524816;

// What one read gives. A read that a signal cuts off is tried again, as std's readers do.
fn read_some<F: Read>(file: &mut F, bytes: &mut [u8]) -> Result<usize, Error>
    ensures fits { IfOk result (λ n. n ≤ length bytes.new) }
    ensures first { IfOk result (λ n. Consumes (F.remaining file.old) (F.remaining file.new) (take n bytes.new)) }
    ensures end { IfOk result (λ n. n ≡ 0 → 0 < length bytes.new → IsAtEnd (F.remaining file.new)) }
    ensures retried { IfErr result (λ e. error_kind e ≢ ErrorKind.Interrupted) }
{
    for _ in 0..u64::MAX {
        match file.read(bytes) {
            Err(error) if error.kind() == ErrorKind::Interrupted => {}
            read => return read,
        }
    }
    Err(Error::from(ErrorKind::TimedOut))
}

// Reads until the buffer is full or the file ends, and hands back how many bytes stand at the buffer's start.
// A loop of its own: what std has for this allocates, or fails at the end of a short file.
fn fill<F: Read>(file: &mut F, bytes: &mut [u8]) -> Result<usize, Error>
    ensures fits { IfOk result (λ n. n ≤ length bytes.new) }
    ensures first { IfOk result (λ n. Consumes (F.remaining file.old) (F.remaining file.new) (take n bytes.new)) }
    ensures end { IfOk result (λ n. n < length bytes.new → IsAtEnd (F.remaining file.new)) }
{
    let mut done = 0;
    while done < bytes.len() {
        let n = read_some(file, &mut bytes[done..])?;
        if n == 0 {
            break;
        }
        done += n;
    }
    Ok(done)
}

// The file's bytes, as many as fit.
pub fn read_first<'a, F: Read>(file: &mut F, bytes: &'a mut [u8]) -> Result<&'a [u8], Error>
    ensures fits { IfOk result (λ read. length read.now ≤ length bytes.old) }
    ensures first { IfOk result (λ read. Consumes (F.remaining file.old) (F.remaining file.new) read.now) }
    ensures end { IfOk result (λ read. length read.now < length bytes.old → IsAtEnd (F.remaining file.new)) }
{
    let n = fill(file, bytes)?;
    Ok(&bytes[..n])
}

// A path is UTF-8 text.
pub fn open_read<R: Files>(rt: &R, path: &[u8]) -> Result<R::File, Error> {
    let Ok(text) = str::from_utf8(path) else {
        return Err(Error::from(ErrorKind::InvalidFilename));
    };
    open(rt, text)
}

// The first bytes of the file.
pub fn read_file<'a>(
    rt: &impl Files,
    path: &[u8],
    bytes: &'a mut [u8; LONGEST],
) -> Result<&'a [u8], Error>
    ensures { IfOk result (λ read. length read.now ≤ 524816) }
{
    let mut file = open_read(rt, path)?;
    read_first(&mut file, bytes)
}

// The text without the number that an error of the system ends with, as ` (os error 2)`.
fn without_number(text: &str) -> &str {
    match text.rsplit_once(" (") {
        Some((reason, _)) => reason,
        None => text,
    }
}

// Says why a file can't be read. The text takes no memory, since it may be that memory has run out.
pub fn fail(stderr: Stderr, name: &[u8], error: Error) {
    let mut text = ArrayString::<512>::new();
    let _ = write!(text, "{error}");
    let reason = without_number(text.as_str()).as_bytes();
    for part in [name, b": ", reason, b"\n"] {
        let _ = stderr.write_all(part);
    }
}

#[cfg(test)]
mod tests {
    use super::{LONGEST, read_file, read_first};
    use std::test::Fail;

    // No contract says that a read succeeds.
    #[test]
    fn reads_the_first_bytes(rt: HostRuntime) -> Result<(), Fail> {
        let mut three = [0u8; 3];
        let mut file = b"story".as_slice();
        assert_eq!(rt; read_first(&mut file, &mut three)?, b"sto".as_slice());
        let mut nine = [0u8; 9];
        let mut file = b"story".as_slice();
        assert_eq!(rt; read_first(&mut file, &mut nine)?, b"story".as_slice());
        Ok(())
    }

    // The file that this test runs from.
    #[test]
    fn reads_a_file(rt: HostRuntime) -> Result<(), Fail> {
        let mut bytes = [0u8; LONGEST];
        assert!(rt; read_file(&rt, b"/proc/self/exe", &mut bytes)?.starts_with(b"\x7fELF"));
        assert!(rt; read_file(&rt, b"", &mut bytes).is_err());
        Ok(())
    }
}
