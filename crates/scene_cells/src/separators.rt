// The separator of a sheet: the one that its first line gives, or the one by which its header names the most columns.
ghost use Rattle.std.specs.Prelude.{◌≡◌};
ghost use Rattle.scene_cells.specs.Separators.{SepLineAt, can_separate, named_in, separator_of};

use crate::columns::column_of;
use crate::lookup::Cells;
use crate::{behind_break, ends_row};
use text_words::names::same_name;

// Excel's first line `sep=;`: the separator, and the text behind the line, where the header starts.
#[derive(Clone, Copy)]
pub struct SepLine<'a> {
    pub separator: u8,
    pub rest: &'a [u8],
}

// How many cells of a row name a column.
fn named_in(row: &[u8], separator: u8) -> usize
    ensures { result ≡ named_in separator row.now }
{
    Cells::new(row, separator)
        .filter(|cell| column_of(cell.bytes).is_some())
        .count()
}

// Comma, semicolon or tab: the one by which the header names the most columns, the first of those that name as many. `max_by_key`
// is no plainer: it takes the last of equals, so the three would stand backwards, and it has an answer for none.
pub fn separator_in(header: &[u8]) -> u8
    ensures { result ≡ separator_of header.now }
{
    let comma = named_in(header, b',');
    let semicolon = named_in(header, b';');
    let tab = named_in(header, b'\t');
    if (semicolon <= comma) & (tab <= comma) {
        return b',';
    }
    if tab <= semicolon {
        return b';';
    }
    b'\t'
}

// Any byte but a quote, a line feed and a carriage return.
fn can_separate(byte: u8) -> bool
    ensures { result ≡ can_separate byte }
{
    !((byte == b'"') | ((byte == b'\n') | (byte == b'\r')))
}

// The line `sep=;` that a text begins with, with any separator.
pub fn sep_line(text: &[u8]) -> Option<SepLine<'_>>
    ensures { SepLineAt text.now result }
{
    if text.len() < 6 {
        return None;
    }
    let (name, rest) = text.split_at(4);
    let separator = rest[0];
    let end = &rest[1..];
    if same_name(name, b"sep=") & can_separate(separator) & ends_row(end) {
        return Some(SepLine {
            separator,
            rest: behind_break(end),
        });
    }
    None
}
