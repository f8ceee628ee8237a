// The cells of a row, as spreadsheets export them (RFC 4180): a separator between them, and behind the last a line feed, a
// carriage return or both. A cell in quotes may hold separators and line ends, and a doubled quote for each quote.
#![tactic(auto)]

pub mod choices;
pub mod columns;
pub mod lookup;
pub mod marks;
pub mod quotes;
pub mod separators;
pub mod spaces;

ghost use Rattle.std.specs.Prelude.{◌≡◌, ◌≤◌, drop, length};
ghost use Rattle.scene_cells.specs.Cells.{behind_break, cell_of, closed_to, ends_row, from_break, from_quote, plain_cell, quoted_cell};
ghost use Rattle.scene_cells.specs.Contents.{content};

use crate::quotes::Unquoted;
use text_words::length_before;

// What is wrong with a cell.
#[derive(Clone, Copy, PartialEq, Eq, Debug)]
pub enum CellFault {
    // No quote closes it.
    Unclosed,
    // There are bytes behind the closing quote.
    BehindQuote,
}

// A cell's bytes, inside its quotes if it has any; the text behind it, where the next cell or row starts; whether it is its row's
// last.
#[derive(Clone, Copy)]
pub struct Cell<'a> {
    pub bytes: &'a [u8],
    pub rest: &'a [u8],
    pub quoted: bool,
    pub last: bool,
    pub wrong: Option<CellFault>,
}

impl<'a> Cell<'a> {
    // Its bytes as they are meant.
    pub fn unquoted(self) -> Unquoted<'a>
        ensures bytes { result.bytes.now ≡ self.entry.bytes.now }
        ensures quoted { result.quoted ≡ self.entry.quoted }
    {
        Unquoted {
            bytes: self.bytes,
            quoted: self.quoted,
        }
    }
}

// From here up to `Cells::new` a text and its separator go side by side, in no struct: the text gets shorter from call to call and the
// separator stays, so each call would make the struct anew.

// How many bytes of a text stand before its first separator or line end.
fn before_break(text: &[u8], separator: u8) -> usize
    ensures bound { result ≤ length text.now }
    ensures cut { drop result text.now ≡ from_break separator text.now }
{
    length_before(text, |b| (b == separator) | ((b == b'\n') | (b == b'\r')))
}

// A text from the quote on that closes a cell; nothing where none does. A doubled quote is passed.
fn from_quote(text: &[u8]) -> &[u8]
    ensures { result.now ≡ from_quote text.now }
{
    let mut rest = text;
    loop {
        match rest {
            [b'"', b'"', behind @ ..] => rest = behind,
            [] | [b'"', ..] => return rest,
            [_, behind @ ..] => rest = behind,
        }
    }
}

// A row's end: the text's, a line feed or a carriage return.
pub(crate) fn ends_row(text: &[u8]) -> bool
    ensures { result ≡ ends_row text.now }
{
    match text {
        [b, ..] => (*b == b'\n') | (*b == b'\r'),
        [] => true,
    }
}

// A text behind the separator or line end that it begins with, behind both bytes of CR LF.
pub(crate) fn behind_break(text: &[u8]) -> &[u8]
    ensures { result.now ≡ behind_break text.now }
{
    match text {
        [b'\r', b'\n', rest @ ..] => rest,
        [_, rest @ ..] => rest,
        [] => text,
    }
}

fn plain_cell(text: &[u8], separator: u8) -> Cell<'_>
    ensures { content result ≡ plain_cell separator text.now }
{
    let (bytes, stop) = text.split_at(before_break(text, separator));
    Cell {
        bytes,
        rest: behind_break(stop),
        quoted: false,
        last: ends_row(stop),
        wrong: None,
    }
}

// A cell in quotes, whose closing quote has this text behind it.
fn closed_cell<'a>(bytes: &'a [u8], text: &'a [u8], separator: u8) -> Cell<'a>
    ensures { content result ≡ closed_to bytes.now text.now (from_break separator text.now) }
{
    let (between, stop) = text.split_at(before_break(text, separator));
    let wrong = if between.is_empty() {
        None
    } else {
        Some(CellFault::BehindQuote)
    };
    Cell {
        bytes,
        rest: behind_break(stop),
        quoted: true,
        last: ends_row(stop),
        wrong,
    }
}

// A cell in quotes, for the text behind the first of them.
fn quoted_cell(text: &[u8], separator: u8) -> Cell<'_>
    ensures { content result ≡ quoted_cell separator text.now }
{
    let close = from_quote(text);
    match close {
        [_, behind @ ..] => closed_cell(&text[..text.len() - close.len()], behind, separator),
        [] => Cell {
            bytes: text,
            rest: close,
            quoted: true,
            last: true,
            wrong: Some(CellFault::Unclosed),
        },
    }
}

// The cell that a text begins with, where `separator` stands between cells.
pub fn cell_at(text: &[u8], separator: u8) -> Cell<'_>
    ensures { content result ≡ cell_of separator text.now }
{
    match text {
        [b'"', rest @ ..] => quoted_cell(rest, separator),
        _ => plain_cell(text, separator),
    }
}
