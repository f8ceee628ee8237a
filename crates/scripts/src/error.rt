// What can be wrong with a line of a script.
use script_lines::LineError;
use std::fmt;
use std::fmt::Display;

#[derive(Clone, Copy, PartialEq, Eq, Debug)]
pub enum ScriptError {
    OfLine(LineError),
    NoBoard,
    TooLong,
    NoValue,
}

impl From<LineError> for ScriptError {
    fn from(error: LineError) -> ScriptError {
        ScriptError::OfLine(error)
    }
}

impl Display for ScriptError {
    fn fmt<W: fmt::Write>(&self, f: &mut fmt::Formatter<W>) -> fmt::Result {
        match self {
            ScriptError::OfLine(error) => error.fmt(f),
            ScriptError::NoBoard => f.write_str("no board is created yet"),
            ScriptError::TooLong => f.write_str("the line is too long"),
            ScriptError::NoValue => f.write_str("an answer can't be set"),
        }
    }
}
