// A row: the first bytes of a file, how many bytes it has, and what `read_header` must answer (oracle/FORMAT.md).
ghost use Rattle.std.specs.Prelude.{◌≤◌, IfSome};

use base_shared::Refusal;
use cartridge::Cartridge;
use memory_layout::MemoryLayout;
use std::fmt;
use std::fmt::{Display, Formatter};
use text_words::names::{Words, same_name};
use text_words::number::in_base;
use text_words::only_word;
use vrc6_words::{mirroring_of, revision_of};

// The longest file of a row.
pub const LONGEST_FILE: usize = 600000;

// The largest number of an answer.
const LARGEST: u32 = 0xFFFF_FFFE;

// What is wrong with a line.
#[derive(Clone, Copy, Debug, PartialEq, Eq)]
pub enum RowError {
    NoBytes,
    NoLength,
    NoEquals,
    NoAnswer,
}

impl Display for RowError {
    fn fmt<W: fmt::Write>(&self, f: &mut Formatter<W>) -> fmt::Result {
        f.write_str(match *self {
            RowError::NoBytes => {
                "the first word is no bytes: two hexadecimal digits each, 16 bytes at most, - for none"
            }
            RowError::NoLength => "the second word is no length: 0 to 600000",
            RowError::NoEquals => "the third word is not =",
            RowError::NoAnswer => "behind = stands no answer: 5, 6, 7 or nine words",
        })
    }
}

#[derive(Clone, Copy)]
pub struct Row {
    // The first bytes of the file; behind them it has zeros.
    pub head: [u8; 16],
    pub length: usize,
    pub answer: Result<Cartridge, Refusal>,
    ghost fits: { length ≤ 600000 },
}

impl Row {
    // The file that the row tells of, at the start of a space that has zeros behind a row's head.
    pub(crate) fn file<'a>(&self, space: &'a mut [u8; LONGEST_FILE]) -> &'a [u8] {
        space[..16].copy_from_slice(&self.head);
        &space[..self.length]
    }
}

// The bytes of a word, two digits each; - stands for none.
fn head_of(word: &[u8]) -> Option<[u8; 16]> {
    let mut head = [0; 16];
    if word == b"-".as_slice() {
        return Some(head);
    }
    if word.len() > 32 || word.len() % 2 != 0 {
        return None;
    }
    for (byte, digits) in head.iter_mut().zip(word.chunks(2)) {
        *byte = in_base(digits, 16, 255).ok()? as u8;
    }
    Some(head)
}

fn length_of(word: &[u8]) -> Option<usize>
    ensures { IfSome result (λ length. length ≤ 600000) }
{
    let length = in_base(word, 10, LONGEST_FILE as u32).ok()?;
    Some(length as usize)
}

fn number_of(word: &[u8]) -> Option<u32> {
    in_base(word, 10, LARGEST).ok()
}

fn refusal_of(word: &[u8]) -> Option<Refusal> {
    match word {
        b"5" => Some(Refusal::NoHeader),
        b"6" => Some(Refusal::Mapper),
        b"7" => Some(Refusal::FileLength),
        _ => None,
    }
}

// Whether CHR is RAM.
fn chr_writable_of(word: &[u8]) -> Option<bool> {
    if same_name(b"ram", word) {
        Some(true)
    } else if same_name(b"rom", word) {
        Some(false)
    } else {
        None
    }
}

fn layout_of(words: &mut Words) -> Option<MemoryLayout> {
    Some(MemoryLayout {
        prg_rom: number_of(words.next()?)?,
        chr: number_of(words.next()?)?,
        chr_writable: chr_writable_of(words.next()?)?,
        prg_ram: number_of(words.next()?)?,
        ciram: number_of(words.next()?)?,
    })
}

// The nine words of an accepted file's answer, and nothing behind them.
fn cartridge_of(text: &[u8]) -> Option<Cartridge> {
    let mut words = Words { text };
    let cartridge = Cartridge {
        layout: layout_of(&mut words)?,
        mirroring: mirroring_of(words.next()?)?,
        revision: revision_of(words.next()?)?,
        prg_start: number_of(words.next()?)?,
        chr_start: number_of(words.next()?)?,
    };
    match words.next() {
        Some(_) => None,
        None => Some(cartridge),
    }
}

// A refusal's number, or nine words.
fn answer_of(text: &[u8]) -> Option<Result<Cartridge, Refusal>> {
    match only_word(text) {
        Some(word) => refusal_of(word).map(Err),
        None => cartridge_of(text).map(Ok),
    }
}

pub(crate) fn read_row(line: &[u8]) -> Result<Row, RowError> {
    let mut words = Words { text: line };
    let head = words.next().and_then(head_of).ok_or(RowError::NoBytes)?;
    let length = words.next().and_then(length_of).ok_or(RowError::NoLength)?;
    if words.next() != Some(b"=".as_slice()) {
        return Err(RowError::NoEquals);
    }
    let answer = answer_of(words.text).ok_or(RowError::NoAnswer)?;
    Ok(Row {
        head,
        length,
        answer,
    })
}
