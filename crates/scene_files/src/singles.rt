// A cell of one word: what it says, and whether a file says otherwise.
ghost use Rattle.std.specs.Prelude.{◌≡◌, ℕ, List, Bool, Option, Result};
ghost use Rattle.text_words.specs.declared.number.NumberError.{NumberError};
ghost use Rattle.scene_files.specs.Singles.{compared, file_value, single_error, single_of, value_said};

use text_words::number::NumberError;
use text_words::{is_empty, next_word};

// What stands for an empty cell: the file's value, from which no cell may differ, or without a file another.
#[derive(Clone, Copy, PartialEq, Eq, Debug)]
pub enum Said<T> {
    File(T),
    Default(T),
}

impl<T: Copy> Said<T> {
    fn value(self) -> T
        ensures { result ≡ value_said self }
    {
        match self {
            Said::File(value) | Said::Default(value) => value,
        }
    }

    // The file's value, if there is a file.
    pub fn file(self) -> Option<T>
        ensures { result ≡ file_value self }
    {
        match self {
            Said::File(value) => Some(value),
            Said::Default(_) => None,
        }
    }
}

// What is wrong with a cell of one word.
#[derive(Clone, Copy, PartialEq, Eq, Debug)]
pub enum SingleError {
    // No number, or none of the words.
    NoValue,
    TooLarge,
    ManyWords,
    // Another value than the file's.
    NotTheFile,
}

impl From<NumberError> for SingleError {
    ghost from_gives = { λ number single. single ≡ single_error number };

    fn from(error: NumberError) -> SingleError {
        match error {
            NumberError::NoNumber => SingleError::NoValue,
            NumberError::TooLarge => SingleError::TooLarge,
        }
    }
}

// A word's value beside the file's, where there is a file.
fn compared<T: Copy + PartialEq>(
    value: Result<T, NumberError>,
    said: Said<T>,
) -> Result<T, SingleError>
    ensures { result ≡ compared T.eq said value }
{
    let value = value?;
    match said {
        Said::File(of_file) if value != of_file => Err(SingleError::NotTheFile),
        _ => Ok(value),
    }
}

// What a cell says whose words are read so.
pub fn single_of<T: Copy + PartialEq, F: Fn(&[u8]) -> Result<T, NumberError>>(
    cell: &[u8],
    said: Said<T>,
    read: F,
) -> Result<T, SingleError>
    ghost reads: { List ℕ → Result T NumberError }
    requires callable { F.IsAlwaysCallable read }
    requires tells { (word : _) (r : _) → F.post read word r → r ≡ reads word.now }
    ensures { result ≡ single_of T.eq reads said cell.now }
{
    let Some(word) = next_word(cell) else {
        return Ok(said.value());
    };
    if !is_empty(word.rest) {
        return Err(SingleError::ManyWords);
    }
    compared(read(word.bytes), said)
}
