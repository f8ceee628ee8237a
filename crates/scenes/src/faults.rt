// What is wrong with a row, as a line: the row, the column, and what is wrong.
use base_shared::Refusal;
use cartridge_report::Refused;
use scene_cells::columns::Column;
use scene_cells::quotes::Unquoted;
use scene_files::filed::FileSays;
use scene_steps::letters::PairError;
use scene_steps::picture::AtError;
use scene_steps::step::StepError;
use std::fmt;
use text_output::{Output, put};

// What is wrong with a row, or with a cell as a whole.
#[derive(Clone, Copy, PartialEq, Eq)]
pub enum Fault {
    Unclosed,
    BehindQuote,
    // The same of a cell that has no column.
    BehindAQuote,
    HeaderQuote,
    Blank,
    ManyCells,
    ManySteps,
    Unnamed,
}

impl fmt::Display for Fault {
    fn fmt<W: fmt::Write>(&self, f: &mut fmt::Formatter<W>) -> fmt::Result {
        f.write_str(match self {
            Fault::Unclosed => "a quote is never closed, so the sheet ends here",
            Fault::BehindQuote => "something stands behind the closing quote",
            Fault::BehindAQuote => "something stands behind a closing quote",
            Fault::HeaderQuote => "a quote is not closed, or something stands behind it",
            Fault::Blank => "blank",
            Fault::ManyCells => "more cells than the header has",
            Fault::ManySteps => "more than 4096 steps",
            Fault::Unnamed => "a cell stands under a column without a name",
        })
    }
}

// What is wrong was told already.
#[derive(Clone, Copy)]
pub struct Told;

// What is wrong with a word, as it is told behind the word.
#[derive(Clone, Copy)]
pub enum WordFault {
    Step(StepError),
    Pair(PairError),
    SecondBank,
    Place(AtError),
    NoDecimal,
    NoRevision,
    NoMirroring,
    NoInterrupts,
    TooLarge,
    ManyWords,
    NotTheFile(FileSays),
    Unread,
    Refused(Refusal),
}

impl fmt::Display for WordFault {
    fn fmt<W: fmt::Write>(&self, f: &mut fmt::Formatter<W>) -> fmt::Result {
        match self {
            WordFault::Step(error) => write!(f, "{error}"),
            WordFault::Pair(error) => write!(f, "{error}"),
            WordFault::SecondBank => f.write_str("is a second bank for its slot"),
            WordFault::Place(error) => write!(f, "{error}"),
            WordFault::NoDecimal => f.write_str("is no decimal number"),
            WordFault::NoRevision => f.write_str("is no revision: A or B"),
            WordFault::NoMirroring => f.write_str("is no mirroring: V, H, A, B or 4"),
            WordFault::NoInterrupts => f.write_str("is neither masked nor open"),
            WordFault::TooLarge => f.write_str("is too large"),
            WordFault::ManyWords => f.write_str("is more than one word"),
            WordFault::NotTheFile(said) => write!(f, "is not what the file says, {said}"),
            WordFault::Unread => f.write_str("can't be read"),
            WordFault::Refused(refusal) => write!(f, "is {}", Refused(*refusal)),
        }
    }
}

// Where a fault is. One of no column is one of the whole row.
#[derive(Clone, Copy)]
pub struct Place {
    pub row: u32,
    pub column: Option<Column>,
}

impl fmt::Display for Place {
    fn fmt<W: fmt::Write>(&self, f: &mut fmt::Formatter<W>) -> fmt::Result {
        let row = self.row;
        match self.column {
            Some(column) => write!(f, "row {row}, {column}"),
            None => write!(f, "row {row}"),
        }
    }
}

const DIGITS: [u8; 16] = *b"0123456789ABCDEF";

// A byte of a cell. Control characters are written as \xHH, so that a cell stays on its line; a backslash is doubled.
fn put_byte(out: &mut Output, byte: u8) {
    if byte.is_ascii_control() {
        // By hand, since a name may have nothing else: a format for each byte takes longer.
        out.put_all(b"\\x");
        out.put(DIGITS[usize::from(byte / 16)]);
        out.put(DIGITS[usize::from(byte % 16)]);
    } else if byte == b'\\' {
        out.put_all(b"\\\\");
    } else {
        out.put(byte);
    }
}

// A cell's bytes as they are meant.
pub(crate) fn put_cell(out: &mut Output, cell: Unquoted) {
    for byte in cell {
        put_byte(out, byte);
    }
}

impl Place {
    // A fault of a row or a cell.
    pub(crate) fn tell(self, out: &mut Output, fault: Fault) {
        put!(out; "{self}: {fault}\n");
    }

    // A fault of a word, which stands in single quotes.
    pub(crate) fn tell_word(self, out: &mut Output, word: Unquoted, fault: WordFault) {
        put!(out; "{self}: '");
        put_cell(out, word);
        put!(out; "' {fault}\n");
    }
}
