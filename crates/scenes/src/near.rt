// Names that are nearly a column's: a letter more, less or other, or two letters that changed places.
use scene_cells::columns::{COLUMNS, Column};
use text_words::names::same_name;
use text_words::only_word;

// Shorter names are near to too many words.
const SHORTEST: usize = 4;

const LONGEST: usize = 20;

// How many letters two names have in common from their beginning on.
fn common(a: &[u8], b: &[u8]) -> usize {
    a.iter()
        .zip(b)
        .take_while(|(x, y)| x.eq_ignore_ascii_case(y))
        .count()
}

// A text behind its first n bytes.
fn rest(text: &[u8], n: usize) -> &[u8] {
    text.get(n..).unwrap_or_default()
}

// Whether two names begin with two letters that changed places, and are the same behind them.
fn is_swapped(a: &[u8], b: &[u8]) -> bool {
    match (a, b) {
        ([p, q, a_rest @ ..], [r, s, b_rest @ ..]) => {
            p.eq_ignore_ascii_case(s) && q.eq_ignore_ascii_case(r) && same_name(a_rest, b_rest)
        }
        _ => false,
    }
}

// Where two names first differ, either has a letter more, both have another, or two changed places.
fn is_near(a: &[u8], b: &[u8]) -> bool {
    if a.len() < SHORTEST && b.len() < SHORTEST {
        return false;
    }
    let n = common(a, b);
    let a_rest = rest(a, n);
    let b_rest = rest(b, n);
    same_name(rest(a_rest, 1), rest(b_rest, 1))
        || same_name(rest(a_rest, 1), b_rest)
        || same_name(a_rest, rest(b_rest, 1))
        || is_swapped(a_rest, b_rest)
}

// The column that a header cell may mean.
pub(crate) fn near_column(cell: &[u8]) -> Option<Column> {
    let name = only_word(cell).filter(|name| name.len() <= LONGEST)?;
    COLUMNS
        .iter()
        .copied()
        .find(|column| is_near(name, column.name().as_bytes()))
}
