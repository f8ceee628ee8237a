// The values that a line asks for or sets, each by its name, and by a place where there are several.
ghost use Rattle.std.specs.Prelude.{◌≡◌, ◌%◌};
ghost use Rattle.text_words.specs.Names.{words_of};
ghost use Rattle.script_lines.specs.Readings.{read};
ghost use Rattle.script_lines.specs.Values.{buffer_after, channel_field_after, layout_field_after, named_value, value_behind, value_name_after};

use crate::arguments::{address_after, decimal_after, named_after};
use crate::error::LineError;
use text_words::names::Words;

#[derive(Clone, Copy, PartialEq, Eq, Debug)]
pub enum Buffer {
    Fixed,
    Changing,
}

const BUFFERS: [(&[u8], Buffer); 2] = [(b"fixed", Buffer::Fixed), (b"changing", Buffer::Changing)];

#[derive(Clone, Copy, PartialEq, Eq, Debug)]
pub enum LayoutField {
    PrgRom,
    Chr,
    ChrWritable,
    PrgRam,
    Ciram,
}

const LAYOUT_FIELDS: [(&[u8], LayoutField); 5] = [
    (b"prg", LayoutField::PrgRom),
    (b"chr", LayoutField::Chr),
    (b"writable", LayoutField::ChrWritable),
    (b"ram", LayoutField::PrgRam),
    (b"ciram", LayoutField::Ciram),
];

#[derive(Clone, Copy, PartialEq, Eq, Debug)]
pub enum ChannelName {
    Pulse1,
    Pulse2,
    Saw,
}

// Those of pulse and saw.
#[derive(Clone, Copy, PartialEq, Eq, Debug)]
pub enum ChannelField {
    Enabled,
    Volume,
    Duty,
    IgnoreDuty,
    Frequency,
    Timer,
    Step,
    Shift,
    Accumulator,
    Rate,
}

const CHANNEL_FIELDS: [(&[u8], ChannelField); 10] = [
    (b"enabled", ChannelField::Enabled),
    (b"volume", ChannelField::Volume),
    (b"duty", ChannelField::Duty),
    (b"ignore-duty", ChannelField::IgnoreDuty),
    (b"frequency", ChannelField::Frequency),
    (b"timer", ChannelField::Timer),
    (b"step", ChannelField::Step),
    (b"shift", ChannelField::Shift),
    (b"accumulator", ChannelField::Accumulator),
    (b"rate", ChannelField::Rate),
];

// Entries by an address that they serve, registers by their number.
#[derive(Clone, Copy, PartialEq, Eq, Debug)]
pub enum BoardValue {
    Entry(u32),
    PictureEntry(u32),
    Chr(u32),
    Nametable(u32),
    Layout(LayoutField),
    Channel(ChannelName, ChannelField),
    Mode,
    Prg16,
    Prg8,
    Mirroring,
    Revision,
    Reload,
    Counter,
    Prescaler,
    Pending,
    Enabled,
    AfterAcknowledge,
    Cycle,
    Halt,
    Sum,
    OpenBus,
}

// What the last call answered.
#[derive(Clone, Copy, PartialEq, Eq, Debug)]
pub enum AnswerValue {
    ViewLength,
    Refusal,
    Byte,
    Ticks,
    FirstTick,
    LastTick,
    Interrupt,
    Sounding,
    Level,
    LevelBits,
    Forecast,
}

// Bytes by their offset.
#[derive(Clone, Copy, PartialEq, Eq, Debug)]
pub enum Value {
    Board(BoardValue),
    Byte(Buffer, u32),
    Answer(AnswerValue),
    ViewByte(u32),
    Untouched,
    Kept,
}

// A name that a place follows, or one of a value alone.
#[derive(Clone, Copy, PartialEq, Eq, Debug)]
pub enum ValueName {
    Entry,
    PictureEntry,
    Chr,
    Nametable,
    Byte(Buffer),
    Layout,
    Channel(ChannelName),
    ViewByte,
    OfBoard(BoardValue),
    OfAnswer(AnswerValue),
    Untouched,
    Kept,
}

pub const VALUES: [(&[u8], ValueName); 39] = [
    (b"entry", ValueName::Entry),
    (b"picture-entry", ValueName::PictureEntry),
    (b"chr", ValueName::Chr),
    (b"nametable", ValueName::Nametable),
    (b"fixed", ValueName::Byte(Buffer::Fixed)),
    (b"changing", ValueName::Byte(Buffer::Changing)),
    (b"layout", ValueName::Layout),
    (b"pulse1", ValueName::Channel(ChannelName::Pulse1)),
    (b"pulse2", ValueName::Channel(ChannelName::Pulse2)),
    (b"saw", ValueName::Channel(ChannelName::Saw)),
    (b"mode", ValueName::OfBoard(BoardValue::Mode)),
    (b"prg-16k", ValueName::OfBoard(BoardValue::Prg16)),
    (b"prg-8k", ValueName::OfBoard(BoardValue::Prg8)),
    (b"mirroring", ValueName::OfBoard(BoardValue::Mirroring)),
    (b"revision", ValueName::OfBoard(BoardValue::Revision)),
    (b"reload", ValueName::OfBoard(BoardValue::Reload)),
    (b"counter", ValueName::OfBoard(BoardValue::Counter)),
    (b"prescaler", ValueName::OfBoard(BoardValue::Prescaler)),
    (b"pending", ValueName::OfBoard(BoardValue::Pending)),
    (b"enabled", ValueName::OfBoard(BoardValue::Enabled)),
    (
        b"after-acknowledge",
        ValueName::OfBoard(BoardValue::AfterAcknowledge),
    ),
    (b"cycle", ValueName::OfBoard(BoardValue::Cycle)),
    (b"halt", ValueName::OfBoard(BoardValue::Halt)),
    (b"sum", ValueName::OfBoard(BoardValue::Sum)),
    (b"open-bus", ValueName::OfBoard(BoardValue::OpenBus)),
    (b"view-byte", ValueName::ViewByte),
    (b"view-length", ValueName::OfAnswer(AnswerValue::ViewLength)),
    (b"refusal", ValueName::OfAnswer(AnswerValue::Refusal)),
    (b"byte", ValueName::OfAnswer(AnswerValue::Byte)),
    (b"ticks", ValueName::OfAnswer(AnswerValue::Ticks)),
    (b"first-tick", ValueName::OfAnswer(AnswerValue::FirstTick)),
    (b"last-tick", ValueName::OfAnswer(AnswerValue::LastTick)),
    (b"interrupt", ValueName::OfAnswer(AnswerValue::Interrupt)),
    (b"sounding", ValueName::OfAnswer(AnswerValue::Sounding)),
    (b"level", ValueName::OfAnswer(AnswerValue::Level)),
    (b"level-bits", ValueName::OfAnswer(AnswerValue::LevelBits)),
    (b"forecast", ValueName::OfAnswer(AnswerValue::Forecast)),
    (b"untouched", ValueName::Untouched),
    (b"kept", ValueName::Kept),
];

// The low bits of a number that is too large for its field.
pub fn byte(n: u32) -> u8
    ensures { result ≡ n % 256 }
{
    (n % 256) as u8
}

pub fn half(n: u32) -> u16
    ensures { result ≡ n % 65536 }
{
    (n % 65536) as u16
}

// Each table has a function of its own, as in line.rt.
pub(crate) fn buffer_after(words: &mut Words<'_>) -> Result<Buffer, LineError>
    ensures { read (words_of words.new.text.now) result ≡ buffer_after (words_of words.old.text.now) }
{
    named_after(words, &BUFFERS)
}

fn layout_field_after(words: &mut Words<'_>) -> Result<LayoutField, LineError>
    ensures { read (words_of words.new.text.now) result ≡ layout_field_after (words_of words.old.text.now) }
{
    named_after(words, &LAYOUT_FIELDS)
}

fn channel_field_after(words: &mut Words<'_>) -> Result<ChannelField, LineError>
    ensures { read (words_of words.new.text.now) result ≡ channel_field_after (words_of words.old.text.now) }
{
    named_after(words, &CHANNEL_FIELDS)
}

fn value_name_after(words: &mut Words<'_>) -> Result<ValueName, LineError>
    ensures { read (words_of words.new.text.now) result ≡ value_name_after (words_of words.old.text.now) }
{
    named_after(words, &VALUES)
}

// The value of a name, with its place where there are several.
#[tactic(auto, unfolding(crate::specs::Values::value_behind))]
fn value_behind(name: ValueName, words: &mut Words<'_>) -> Result<Value, LineError>
    ensures { read (words_of words.new.text.now) result ≡ value_behind name (words_of words.old.text.now) }
{
    match name {
        ValueName::Entry => Ok(Value::Board(BoardValue::Entry(address_after(words)?))),
        ValueName::PictureEntry => {
            Ok(Value::Board(BoardValue::PictureEntry(address_after(words)?)))
        }
        ValueName::Chr => Ok(Value::Board(BoardValue::Chr(decimal_after(words)?))),
        ValueName::Nametable => Ok(Value::Board(BoardValue::Nametable(decimal_after(words)?))),
        ValueName::Byte(buffer) => Ok(Value::Byte(buffer, decimal_after(words)?)),
        ValueName::Layout => Ok(Value::Board(BoardValue::Layout(layout_field_after(words)?))),
        ValueName::Channel(channel) => {
            let field = channel_field_after(words)?;
            Ok(Value::Board(BoardValue::Channel(channel, field)))
        }
        ValueName::ViewByte => Ok(Value::ViewByte(decimal_after(words)?)),
        ValueName::OfBoard(value) => Ok(Value::Board(value)),
        ValueName::OfAnswer(value) => Ok(Value::Answer(value)),
        ValueName::Untouched => Ok(Value::Untouched),
        ValueName::Kept => Ok(Value::Kept),
    }
}

// A value by its name.
#[tactic(auto, unfolding(crate::specs::Values::named_value))]
pub(crate) fn named_value(words: &mut Words<'_>) -> Result<Value, LineError>
    ensures { read (words_of words.new.text.now) result ≡ named_value (words_of words.old.text.now) }
{
    let name = value_name_after(words)?;
    value_behind(name, words)
}
