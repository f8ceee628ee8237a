// What can be wrong with a line.
ghost use Rattle.std.specs.Prelude.{Some};
ghost use Rattle.script_lines.specs.Errors.{error_text};

use std::fmt;
use std::fmt::Display;

#[derive(Clone, Copy, PartialEq, Eq, Debug)]
pub enum LineError {
    UnknownLine,
    Missing,
    NoHexadecimal,
    NoDecimal,
    TooLarge,
    TooMany,
    NoChoice,
}

impl Display for LineError {
    ghost output = { λ error. Some (error_text error) };

    fn fmt<W: fmt::Write>(&self, f: &mut fmt::Formatter<W>) -> fmt::Result {
        f.write_str(match self {
            LineError::UnknownLine => "no such line",
            LineError::Missing => "a word is missing",
            LineError::NoHexadecimal => "no hexadecimal number",
            LineError::NoDecimal => "no decimal number",
            LineError::TooLarge => "the number is too large",
            LineError::TooMany => "too many words",
            LineError::NoChoice => "none of the words that can stand there",
        })
    }
}
