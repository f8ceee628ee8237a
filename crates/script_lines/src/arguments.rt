// A line's arguments, one after the other.
ghost use Rattle.std.specs.Prelude.{◌≡◌, ◌≤◌, drop, map, IfOk};
ghost use Rattle.text_words.specs.Names.{words_of};
ghost use Rattle.script_lines.specs.Readings.{address_after, byte_after, decimal_after, hexadecimal_after, marked_number, mirroring_after, named_after, number_after, number_fault, read, value_after};

use crate::error::LineError;
use text_words::names::{Words, named};
use text_words::number::{NumberError, in_base};
use vrc6_slots::Mirroring;

// The number of `none`, which stands where any value may: no forecast is as large.
pub const NONE: u32 = u32::MAX;

// The words that stand for numbers, since a row compares any value with any word.
const NUMBERS: [(&[u8], u32); 6] = [
    (b"no", 0),
    (b"yes", 1),
    (b"silent", 1),
    (b"held", 2),
    (b"playing", 3),
    (b"none", NONE),
];

// A word's number, hexadecimal behind `$`.
fn marked(word: &[u8], base: u64, limit: u32) -> Result<u32, NumberError>
    ensures value { result ≡ marked_number base limit word.now }
    ensures limit { IfOk result (λ n. n ≤ limit) }
{
    match word {
        [b'$', digits @ ..] => in_base(digits, 16, limit),
        _ => in_base(word, base, limit),
    }
}

// What is wrong with a line where a word is no number, or none that may stand there.
fn fault(error: NumberError, none: LineError) -> LineError
    ensures { result ≡ number_fault none error }
{
    match error {
        NumberError::NoNumber => none,
        NumberError::TooLarge => LineError::TooLarge,
    }
}

// A number in a base, up to a limit; none is what a word that is no number is wrong by. As by the next two, one word is taken,
// also one that is wrong.
#[tactic(auto, unfolding(crate::specs::Readings::number_after))]
pub fn number_after(
    words: &mut Words<'_>,
    base: u64,
    limit: u32,
    none: LineError,
) -> Result<u32, LineError>
    ensures value { read (words_of words.new.text.now) result ≡ number_after base limit none (words_of words.old.text.now) }
    ensures left { words_of words.new.text.now ≡ drop 1 (words_of words.old.text.now) }
    ensures limit { IfOk result (λ n. n ≤ limit) }
{
    let word = words.next().ok_or(LineError::Missing)?;
    marked(word, base, limit).map_err(|error| fault(error, none))
}

// Each of these has its limits in its contract, which those that read a line go by.
pub(crate) fn address_after(words: &mut Words<'_>) -> Result<u32, LineError>
    ensures { read (words_of words.new.text.now) result ≡ address_after (words_of words.old.text.now) }
{
    number_after(words, 16, 0xFFFF, LineError::NoHexadecimal)
}

pub(crate) fn byte_after(words: &mut Words<'_>) -> Result<u32, LineError>
    ensures { read (words_of words.new.text.now) result ≡ byte_after (words_of words.old.text.now) }
{
    number_after(words, 16, 0xFF, LineError::NoHexadecimal)
}

pub(crate) fn hexadecimal_after(words: &mut Words<'_>) -> Result<u32, LineError>
    ensures { read (words_of words.new.text.now) result ≡ hexadecimal_after (words_of words.old.text.now) }
{
    number_after(words, 16, u32::MAX, LineError::NoHexadecimal)
}

pub(crate) fn decimal_after(words: &mut Words<'_>) -> Result<u32, LineError>
    ensures { read (words_of words.new.text.now) result ≡ decimal_after (words_of words.old.text.now) }
{
    number_after(words, 10, u32::MAX, LineError::NoDecimal)
}

// A mirroring, by its number. A number of none is too large.
pub(crate) fn mirroring_after(words: &mut Words<'_>) -> Result<Mirroring, LineError>
    ensures { read (words_of words.new.text.now) result ≡ mirroring_after (words_of words.old.text.now) }
{
    let number = number_after(words, 10, 0xFF, LineError::NoDecimal)?;
    Mirroring::try_from(number as u8).map_err(|_| LineError::TooLarge)
}

// One of the names, as what it stands for.
#[tactic(auto, unfolding(crate::specs::Readings::named_after))]
pub fn named_after<T: Copy>(words: &mut Words<'_>, table: &[(&[u8], T)]) -> Result<T, LineError>
    ensures value { read (words_of words.new.text.now) result ≡ named_after (map (λ entry. (entry.0.now, entry.1)) table.now) (words_of words.old.text.now) }
    ensures left { words_of words.new.text.now ≡ drop 1 (words_of words.old.text.now) }
{
    let word = words.next().ok_or(LineError::Missing)?;
    named(table, word).ok_or(LineError::NoChoice)
}

// A value: a word that stands for a number, or a decimal number.
#[tactic(auto, unfolding(crate::specs::Readings::value_after))]
pub fn value_after(words: &mut Words<'_>) -> Result<u32, LineError>
    ensures value { read (words_of words.new.text.now) result ≡ value_after (words_of words.old.text.now) }
    ensures left { words_of words.new.text.now ≡ drop 1 (words_of words.old.text.now) }
{
    let word = words.next().ok_or(LineError::Missing)?;
    match named(&NUMBERS, word) {
        Some(number) => Ok(number),
        None => marked(word, 10, u32::MAX).map_err(|error| fault(error, LineError::NoDecimal)),
    }
}
