// Where in the picture the writes end: the cell `at`, a line `L` or a line and a dot `L:D`.
ghost use Rattle.std.specs.Prelude.{◌≡◌, Some};
ghost use Rattle.scene_steps.specs.Picture.{at_in, at_of};
ghost use Rattle.scene_steps.specs.Texts.{at_error_text};

use scene_cells::marks::split_once;
use std::fmt;
use text_words::number::in_base;
use text_words::{is_empty, next_word};

// The last line of a picture, and the last dot of a line.
pub const LAST_LINE: u32 = 261;

pub const LAST_DOT: u32 = 340;

#[derive(Clone, Copy, PartialEq, Eq)]
pub enum At {
    Line(u32),
    Dot(u32, u32),
}

// Why a cell says no place.
#[derive(Clone, Copy, PartialEq, Eq)]
pub enum AtError {
    NoLine,
    NoDot,
    ManyWords,
}

impl fmt::Display for AtError {
    ghost output = { λ error. Some (at_error_text error) };

    fn fmt<W: fmt::Write>(&self, f: &mut fmt::Formatter<W>) -> fmt::Result {
        f.write_str(match self {
            AtError::NoLine => "is no line of 0 to 261",
            AtError::NoDot => "has no dot of 0 to 340",
            AtError::ManyWords => "is more than one word",
        })
    }
}

// What a word says.
#[tactic(auto, unfolding(crate::specs::Picture::at_of))]
pub fn at_of(word: &[u8]) -> Result<At, AtError>
    ensures { result ≡ at_of word.now }
{
    let Some((line, dot)) = split_once(word, b':') else {
        let line = in_base(word, 10, LAST_LINE).map_err(|_| AtError::NoLine)?;
        return Ok(At::Line(line));
    };
    let line = in_base(line, 10, LAST_LINE).map_err(|_| AtError::NoLine)?;
    let dot = in_base(dot, 10, LAST_DOT).map_err(|_| AtError::NoDot)?;
    Ok(At::Dot(line, dot))
}

// What a cell says by its only word; a blank cell says nothing.
pub fn at_in(cell: &[u8]) -> Result<Option<At>, AtError>
    ensures { result ≡ at_in cell.now }
{
    let Some(word) = next_word(cell) else {
        return Ok(None);
    };
    if !is_empty(word.rest) {
        return Err(AtError::ManyWords);
    }
    at_of(word.bytes).map(Some)
}
