// The rows of what is expected and what there is.
use script_lines::arguments::NONE;
use script_lines::values::{AnswerValue, Value};
use script_state::told::LevelName;
use std::fmt;
use std::fmt::{Display, Formatter};
use text_output::{Output, put};
use text_words::names::Words;

// How many there are, and how many are wrong.
#[derive(Clone, Copy, Default)]
pub struct Rows {
    pub all: u32,
    pub wrong: u32,
}

// A value: a number, or the word for a level's name or for no forecast.
#[derive(Clone, Copy)]
struct Valued(Value, u32);

impl Display for Valued {
    fn fmt<W: fmt::Write>(&self, f: &mut Formatter<W>) -> fmt::Result {
        let Valued(value, n) = *self;
        match (value, n) {
            (Value::Answer(AnswerValue::Level), _) => match LevelName::try_from(n) {
                Ok(LevelName::Silent) => f.write_str("silent"),
                Ok(LevelName::Held) => f.write_str("held"),
                Ok(LevelName::Playing) => f.write_str("playing"),
                Err(_) => write!(f, "{n}"),
            },
            (Value::Answer(AnswerValue::Forecast), NONE) => f.write_str("none"),
            _ => write!(f, "{n}"),
        }
    }
}

impl Display for Rows {
    fn fmt<W: fmt::Write>(&self, f: &mut Formatter<W>) -> fmt::Result {
        write!(f, "{} rows, {} wrong", self.all, self.wrong)
    }
}

// The value's name and its place, as the line has them between its first and its last word.
fn put_name(out: &mut Output, line: &[u8]) {
    let mut words = Words { text: line };
    let _expect = words.next();
    if let Some(name) = words.next() {
        out.put_all(name);
    }
    if let (Some(place), Some(_)) = (words.next(), words.next()) {
        out.put(b' ');
        out.put_all(place);
    }
}

impl Rows {
    // Counts and prints the row of a line; a wrong one is found by the line's number.
    pub fn row(
        &mut self,
        out: &mut Output,
        line: &[u8],
        number: u64,
        value: Value,
        expected: u32,
        got: u32,
    ) {
        self.all = self.all.wrapping_add(1);
        if expected == got {
            put!(out; "ok    ");
        } else {
            self.wrong = self.wrong.wrapping_add(1);
            put!(out; "WRONG line {number}, ");
        }
        put_name(out, line);
        put!(out; ": expected {}, got {}\n", Valued(value, expected), Valued(value, got));
    }

    // How many there were, if any, and how many are wrong.
    pub fn put_counts(&self, out: &mut Output, name: &[u8]) {
        if self.all == 0 {
            return;
        }
        out.put(b'\n');
        out.put_all(name);
        put!(out; ": {}\n", *self);
    }
}
