// A script from its start to its end, a line at a time.
use crate::error::ScriptError;
use crate::options::Printed;
use crate::reader::Reader;
use crate::session::Session;
use std::io::Read;
use text_output::{Output, put};

// Plays the next line, which has this number. Whether there was one.
fn play_next<F: Read>(
    file: &mut F,
    reader: &mut Reader,
    session: &mut Session,
    out: &mut Output,
    number: u64,
) -> Result<bool, ScriptError> {
    match reader.next_line(file)? {
        None => Ok(false),
        Some(line) => {
            session.play(out, number, line)?;
            Ok(true)
        }
    }
}

// A proved loop has to end, and nothing says that the input does: it counts its turns up to a number that no run uses up.
pub fn run<F: Read>(file: &mut F, name: &[u8], out: &mut Output, printed: Printed) {
    let mut reader = Reader::new();
    let mut session = Session::new(printed);
    for number in 1..=u64::MAX {
        match play_next(file, &mut reader, &mut session, out, number) {
            Ok(true) => {}
            Ok(false) => break,
            Err(error) => {
                out.put_all(name);
                put!(out; ", line {number}: {error}\n");
                break;
            }
        }
    }
    session.rows.put_counts(out, name);
    out.flush();
}
