// A line of a script: its name, and the arguments that follow the name.
ghost use Rattle.std.specs.Prelude.{◌≡◌, Some};
ghost use Rattle.text_words.specs.Names.{words_of};
ghost use Rattle.script_lines.specs.Readings.{read};
ghost use Rattle.script_lines.specs.Lines.{access_after, call_behind, call_letter, creation_after, is_comment, layout_after, layout_s, line_behind, line_read, name_of, reset_after, revision_after, setting_after};

use crate::arguments::{
    address_after, byte_after, decimal_after, hexadecimal_after, mirroring_after, named_after,
    value_after,
};
use crate::error::LineError;
use crate::names::{CallName, NAMES, Name, Shown};
use crate::values::{Buffer, Value, buffer_after, named_value};
use memory_layout::MemoryLayout;
use std::fmt;
use text_words::names::{Words, named};
use vrc6_banking::banking::Revision;
use vrc6_slots::Mirroring;
use vrc6_words::revision_of;

// What the buffers hold when a board is created: zeros, bytes by a seed, or what they held.
#[derive(Clone, Copy, PartialEq, Eq, Debug)]
pub enum Bytes {
    Zeros,
    Filled(u32),
    Kept,
}

// The board that a line creates.
#[derive(Clone, Copy, PartialEq, Eq, Debug)]
pub struct Creation {
    pub layout: MemoryLayout,
    pub mirroring: Mirroring,
    pub revision: Revision,
    pub bytes: Bytes,
}

// A call with its arguments, as a line writes it. No `Call` of the board: `R` and `B` are one call there, and each is answered by its letter.
#[derive(Clone, Copy, PartialEq, Eq, Debug)]
pub enum CallLine {
    Read(u32),
    Write(u32, u32),
    PictureRead(u32),
    PictureWrite(u32, u32),
    View(u32),
    SoftReset,
    HardReset,
    Level,
    Forecast,
    ReadBus(u32, u32),
}

// The letter of its answer.
impl fmt::Display for CallLine {
    ghost output = { λ call. Some (call_letter call) };

    fn fmt<W: fmt::Write>(&self, f: &mut fmt::Formatter<W>) -> fmt::Result {
        f.write_str(match self {
            CallLine::Read(..) => "R",
            CallLine::Write(..) => "W",
            CallLine::PictureRead(..) => "P",
            CallLine::PictureWrite(..) => "Q",
            CallLine::View(..) => "V",
            CallLine::SoftReset | CallLine::HardReset => "Z",
            CallLine::Level => "L",
            CallLine::Forecast => "F",
            CallLine::ReadBus(..) => "B",
        })
    }
}

#[derive(Clone, Copy, PartialEq, Eq, Debug)]
pub enum Line {
    Heading,
    // Boards that are created from here on have open bus, or not.
    OpenBus(bool),
    Create(Creation),
    Call(CallLine),
    Clock(u32),
    Show(Shown),
    Lend(Buffer, u32),
    Poke(Value, u32),
    Expect(Value, u32),
}

const ACCESSES: [(&[u8], bool); 2] = [(b"r", false), (b"w", true)];

const SETTINGS: [(&[u8], bool); 2] = [(b"no", false), (b"yes", true)];

const RESETS: [(&[u8], CallLine); 4] = [
    (b"s", CallLine::SoftReset),
    (b"h", CallLine::HardReset),
    (b"soft", CallLine::SoftReset),
    (b"hard", CallLine::HardReset),
];

// Whether CHR can be written. Each table has a function of its own, so that the proofs of lines go by contracts and not by tables.
fn access_after(words: &mut Words<'_>) -> Result<bool, LineError>
    ensures { read (words_of words.new.text.now) result ≡ access_after (words_of words.old.text.now) }
{
    named_after(words, &ACCESSES)
}

fn setting_after(words: &mut Words<'_>) -> Result<bool, LineError>
    ensures { read (words_of words.new.text.now) result ≡ setting_after (words_of words.old.text.now) }
{
    named_after(words, &SETTINGS)
}

#[tactic(auto, unfolding(crate::specs::Lines::revision_after))]
fn revision_after(words: &mut Words<'_>) -> Result<Revision, LineError>
    ensures { read (words_of words.new.text.now) result ≡ revision_after (words_of words.old.text.now) }
{
    let word = words.next().ok_or(LineError::Missing)?;
    revision_of(word).ok_or(LineError::NoChoice)
}

fn reset_after(words: &mut Words<'_>) -> Result<CallLine, LineError>
    ensures { read (words_of words.new.text.now) result ≡ reset_after (words_of words.old.text.now) }
{
    named_after(words, &RESETS)
}

#[tactic(auto, unfolding(crate::specs::Lines::layout_after))]
fn layout_after(words: &mut Words<'_>) -> Result<MemoryLayout, LineError>
    ensures { read (words_of words.new.text.now) result ≡ layout_after (words_of words.old.text.now) }
{
    Ok(MemoryLayout {
        prg_rom: decimal_after(words)?,
        chr: decimal_after(words)?,
        chr_writable: access_after(words)?,
        prg_ram: decimal_after(words)?,
        ciram: decimal_after(words)?,
    })
}

// A board over the buffers as they are.
#[tactic(auto, unfolding(crate::specs::Lines::creation_after))]
fn creation_after(words: &mut Words<'_>) -> Result<Creation, LineError>
    ensures { read (words_of words.new.text.now) result ≡ creation_after (words_of words.old.text.now) }
{
    Ok(Creation {
        layout: layout_after(words)?,
        mirroring: mirroring_after(words)?,
        revision: revision_after(words)?,
        bytes: Bytes::Kept,
    })
}

// Layout S over buffers of zeros.
fn layout_s(mirroring: Mirroring, revision: Revision) -> Creation
    ensures { result ≡ layout_s mirroring revision }
{
    Creation {
        layout: MemoryLayout {
            prg_rom: 131072,
            chr: 131072,
            chr_writable: false,
            prg_ram: 8192,
            ciram: 2048,
        },
        mirroring,
        revision,
        bytes: Bytes::Zeros,
    }
}

// The call of a name, with its arguments.
#[tactic(auto, unfolding(crate::specs::Lines::call_behind))]
fn call_behind(name: CallName, words: &mut Words<'_>) -> Result<CallLine, LineError>
    ensures { read (words_of words.new.text.now) result ≡ call_behind name (words_of words.old.text.now) }
{
    match name {
        CallName::Read => Ok(CallLine::Read(address_after(words)?)),
        CallName::Write => Ok(CallLine::Write(address_after(words)?, byte_after(words)?)),
        CallName::PictureRead => Ok(CallLine::PictureRead(address_after(words)?)),
        CallName::PictureWrite => {
            Ok(CallLine::PictureWrite(address_after(words)?, byte_after(words)?))
        }
        CallName::View => Ok(CallLine::View(address_after(words)?)),
        CallName::Reset => reset_after(words),
        CallName::Level => Ok(CallLine::Level),
        CallName::Forecast => Ok(CallLine::Forecast),
        CallName::ReadBus => Ok(CallLine::ReadBus(address_after(words)?, byte_after(words)?)),
    }
}

// The line of a name, with its arguments.
#[tactic(auto, unfolding(crate::specs::Lines::line_behind))]
fn line_behind(name: Name, words: &mut Words<'_>) -> Result<Line, LineError>
    ensures { read (words_of words.new.text.now) result ≡ line_behind name (words_of words.old.text.now) }
{
    match name {
        Name::Call(call) => Ok(Line::Call(call_behind(call, words)?)),
        Name::Clock => Ok(Line::Clock(decimal_after(words)?)),
        Name::Filled => {
            let creation = creation_after(words)?;
            let bytes = Bytes::Filled(hexadecimal_after(words)?);
            Ok(Line::Create(Creation { bytes, ..creation }))
        }
        Name::LayoutS => {
            let mirroring = mirroring_after(words)?;
            Ok(Line::Create(layout_s(mirroring, revision_after(words)?)))
        }
        Name::Create => Ok(Line::Create(creation_after(words)?)),
        Name::Show(shown) => Ok(Line::Show(shown)),
        Name::Lend => Ok(Line::Lend(buffer_after(words)?, decimal_after(words)?)),
        Name::Poke => Ok(Line::Poke(named_value(words)?, value_after(words)?)),
        Name::Expect => Ok(Line::Expect(named_value(words)?, value_after(words)?)),
        Name::OpenBus => Ok(Line::OpenBus(setting_after(words)?)),
        // The rest of the line, whatever it is.
        Name::Heading => {
            words.text = b"";
            Ok(Line::Heading)
        }
    }
}

// What a line's first word names.
#[tactic(auto, unfolding(crate::specs::Lines::name_of))]
fn name_of(word: &[u8]) -> Option<Name>
    ensures { result ≡ name_of word.now }
{
    named(&NAMES, word)
}

// Whether a line is a comment, by its first word.
fn is_comment(word: &[u8]) -> bool
    ensures { result ≡ is_comment word.now }
{
    matches!(word, [b'#', ..])
}

// None for a blank line or a comment.
#[tactic(auto, unfolding(crate::specs::Lines::line_read))]
pub fn parse(text: &[u8]) -> Result<Option<Line>, LineError>
    ensures { result ≡ line_read text.now }
{
    let mut words = Words { text };
    let Some(word) = words.next() else {
        return Ok(None);
    };
    if is_comment(word) {
        return Ok(None);
    }
    let name = name_of(word).ok_or(LineError::UnknownLine)?;
    let line = line_behind(name, &mut words)?;
    match words.next() {
        None => Ok(Some(line)),
        Some(_) => Err(LineError::TooMany),
    }
}
