// Rows of headers: each is played, and those whose answer differs are printed.
use crate::row::{LONGEST_FILE, Row, read_row};
use cartridge_files::{LONGEST, fail, read_file};
use cartridge_header::read_header;
use cartridge_report::answers::Answer;
use std::fmt;
use std::fmt::{Display, Formatter};
use std::io::Error;
use text_output::{Output, put};
use text_words::is_blank;

// How many rows there are, how many of them are answered otherwise, and how many lines are no rows.
#[derive(Clone, Copy, Default)]
struct Tally {
    rows: u32,
    wrong: u32,
    bad: u32,
}

impl Display for Tally {
    fn fmt<W: fmt::Write>(&self, f: &mut Formatter<W>) -> fmt::Result {
        let Tally { rows, wrong, bad } = *self;
        write!(f, "{rows} rows, {wrong} wrong, {bad} bad lines")
    }
}

// The rows so far, and where they are played and printed.
#[derive(Drop)]
struct Player<'a> {
    tally: Tally,
    // The space of each row's file in turn; behind a head it has zeros.
    space: &'a mut [u8; LONGEST_FILE],
    out: &'a mut Output,
}

impl<'a> Player<'a> {
    fn play_row(&mut self, line: usize, row: &Row) {
        self.tally.rows = self.tally.rows.saturating_add(1);
        let got = read_header(row.file(self.space));
        if got != row.answer {
            self.tally.wrong = self.tally.wrong.saturating_add(1);
            let expected = Answer(row.answer);
            let got = Answer(got);
            put!(self.out; "WRONG line {line}: expected {expected}, got {got}\n");
        }
    }

    fn play_line(&mut self, line: usize, text: &[u8]) {
        match read_row(text) {
            Ok(row) => self.play_row(line, &row),
            Err(error) => {
                self.tally.bad = self.tally.bad.saturating_add(1);
                put!(self.out; "line {line}: {error}\n");
            }
        }
    }

    // Plays the first line of a text, and hands back what stands behind it.
    fn play_first<'t>(&mut self, number: usize, text: &'t [u8]) -> &'t [u8] {
        let (line, behind) = first_line(text);
        if is_row(line) {
            self.play_line(number, line);
        }
        behind
    }

    // An empty line is passed over at once.
    fn play_lines(&mut self, text: &[u8]) {
        let mut rest = text;
        for number in 1..usize::MAX {
            rest = match rest {
                [] => break,
                [b'\n', behind @ ..] => behind,
                _ => self.play_first(number, rest),
            };
        }
    }
}

// The first line of a text, and what stands behind its line feed.
fn first_line(text: &[u8]) -> (&[u8], &[u8]) {
    let feed = text.iter().position(|byte| *byte == b'\n');
    match text.split_at(feed.unwrap_or(text.len())) {
        (line, [_, behind @ ..]) => (line, behind),
        whole => whole,
    }
}

// A line without a word, or whose first word begins with #, is no row.
fn is_row(line: &[u8]) -> bool {
    match line.iter().find(|byte| !is_blank(**byte)) {
        Some(first) => *first != b'#',
        None => false,
    }
}

fn play_named(rt: &HostRuntime, name: &[u8], out: &mut Output) -> Result<(), Error> {
    let mut bytes = [0u8; LONGEST];
    let text = read_file(rt, name, &mut bytes)?;
    // A text that is as long as is read may be longer.
    if LONGEST <= text.len() {
        out.put_all(name);
        out.put_all(b": longer than 524815 bytes\n");
        return Ok(());
    }
    let mut space = [0u8; LONGEST_FILE];
    let mut player = Player {
        tally: Tally::default(),
        space: &mut space,
        out,
    };
    player.play_lines(text);
    let tally = player.tally;
    out.put_all(name);
    put!(out; ": {tally}\n");
    Ok(())
}

pub(crate) fn play_file(rt: &HostRuntime, name: &[u8]) {
    let mut out = Output::new(rt.stdout());
    if let Err(error) = play_named(rt, name, &mut out) {
        fail(rt.stderr(), name, error);
    }
    out.flush();
}
