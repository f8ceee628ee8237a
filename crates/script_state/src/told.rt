// What a call answered, and the line that shows it.
ghost use Rattle.std.specs.Prelude.{◌≡◌, Some};
ghost use Rattle.script_state.specs.Told.{LevelNumbered, clocks_text, level_text, said_text};

use audio::Level;
use base_floats::pattern::bits_of;
use base_shared::Refusal;
use script_lines::arguments::NONE;
use script_lines::values::AnswerValue;
use std::fmt;
use std::fmt::{Display, Formatter};
use text_output::{Output, put};
use vrc6_calls::Answer;

// Many clocks: how many ticked, the first and the last that did, the first after which pending is set, whether it is set behind them, how
// many left a sum above 0, and the hash of the levels. A clock is counted from 1.
#[derive(Clone, Copy)]
pub struct Clocks {
    pub ticks: u32,
    pub first: Option<u32>,
    pub last: Option<u32>,
    pub interrupt: Option<u32>,
    pub pending: bool,
    pub sounding: u32,
    pub hash: u32,
}

// A page view: its address and hash.
#[derive(Clone, Copy)]
pub struct View {
    pub addr: u16,
    pub hash: u32,
}

#[derive(Clone, Copy)]
pub enum Said {
    Byte(u8),
    Clocks(Clocks),
    // A level's name and its bits.
    Level(LevelName, u32),
    Forecast(Option<u32>),
    View(View),
}

// By the numbers that a value is compared by: a row compares any value with any word, so every word is a number.
#[derive(Clone, Copy, PartialEq, Eq, Debug)]
pub enum LevelName {
    Silent = 1,
    Held = 2,
    Playing = 3,
}

// A number that is no level's.
#[derive(Clone, Copy, PartialEq, Eq, Debug)]
pub struct UnknownLevel(pub u32);

impl TryFrom<u32> for LevelName {
    type Error = UnknownLevel;

    ghost try_from_gives = { LevelNumbered };

    fn try_from(number: u32) -> Result<LevelName, UnknownLevel> {
        match number {
            1 => Ok(LevelName::Silent),
            2 => Ok(LevelName::Held),
            3 => Ok(LevelName::Playing),
            _ => Err(UnknownLevel(number)),
        }
    }
}

impl Display for LevelName {
    ghost output = { λ name. Some (level_text name) };

    fn fmt<W: fmt::Write>(&self, f: &mut Formatter<W>) -> fmt::Result {
        f.write_str(match self {
            LevelName::Silent => "Silent",
            LevelName::Held => "Held",
            LevelName::Playing => "Playing",
        })
    }
}

// What the last call answered: its refusal's number, 0 for none, and what it said. No Result: a refused read hands a byte too, and
// `kept` checks that it is 0.
#[derive(Clone, Copy)]
pub struct Told {
    pub refusal: u8,
    pub said: Option<Said>,
}

impl Said {
    fn of_level(name: LevelName, x: f32) -> Said {
        Said::Level(name, bits_of(x))
    }

    // Whether it is no byte, tick, level, forecast or view.
    fn is_mute(self) -> bool {
        match self {
            Said::Byte(byte) => byte == 0,
            Said::Clocks(clocks) => clocks.ticks == 0,
            Said::Forecast(clocks) => clocks == Some(0),
            Said::Level(..) | Said::View(_) => false,
        }
    }
}

impl Told {
    // A refusal's number alone.
    pub fn number(refusal: u8) -> Told {
        Told {
            refusal,
            said: None,
        }
    }

    pub fn refused(refusal: Refusal) -> Told {
        Told::number(u8::from(refusal))
    }

    pub fn said(said: Said) -> Told {
        Told {
            refusal: 0,
            said: Some(said),
        }
    }

    // Whether a call told no byte, tick, level, forecast or view.
    pub fn is_mute(&self) -> bool {
        self.said.is_none_or(|said| said.is_mute())
    }

    // 0 where the call says nothing of a value (oracle/FORMAT.md).
    pub fn value(&self, name: AnswerValue) -> u32 {
        match (name, self.said) {
            (AnswerValue::Refusal, _) => u32::from(self.refusal),
            (AnswerValue::ViewLength, Some(Said::View(_))) => 1024,
            (AnswerValue::Byte, Some(Said::Byte(byte))) => u32::from(byte),
            (AnswerValue::Ticks, Some(Said::Clocks(clocks))) => clocks.ticks,
            (AnswerValue::FirstTick, Some(Said::Clocks(clocks))) => clocks.first.unwrap_or(0),
            (AnswerValue::LastTick, Some(Said::Clocks(clocks))) => clocks.last.unwrap_or(0),
            (AnswerValue::Interrupt, Some(Said::Clocks(clocks))) => clocks.interrupt.unwrap_or(0),
            (AnswerValue::Sounding, Some(Said::Clocks(clocks))) => clocks.sounding,
            (AnswerValue::Level, Some(Said::Level(name, _))) => name as u32,
            (AnswerValue::LevelBits, Some(Said::Level(_, bits))) => bits,
            (AnswerValue::Forecast, Some(Said::Forecast(clocks))) => clocks.unwrap_or(NONE),
            _ => 0,
        }
    }
}

impl From<Level> for Told {
    fn from(level: Level) -> Told {
        match level {
            Level::Silent(x) => Told::said(Said::of_level(LevelName::Silent, x)),
            Level::Held(x) => Told::said(Said::of_level(LevelName::Held, x)),
            Level::Playing(x) => Told::said(Said::of_level(LevelName::Playing, x)),
            Level::Refused(refusal) => Told::refused(refusal),
        }
    }
}

impl From<Result<Option<u32>, Refusal>> for Told {
    fn from(forecast: Result<Option<u32>, Refusal>) -> Told {
        match forecast {
            Ok(clocks) => Told::said(Said::Forecast(clocks)),
            Err(refusal) => Told::refused(refusal),
        }
    }
}

impl From<Answer> for Told {
    fn from(answer: Answer) -> Told {
        match answer {
            Answer::Byte(byte, refusal) => Told {
                refusal,
                said: Some(Said::Byte(byte)),
            },
            Answer::Done(n) | Answer::Tick(_, n) | Answer::View(n) => Told::number(n),
            Answer::OfLevel(level) => Told::from(level),
            Answer::OfForecast(forecast) => Told::from(forecast),
        }
    }
}

// The counts and the hash; a clock that there is not is 0 (oracle/FORMAT.md).
impl Display for Clocks {
    ghost output = { λ clocks. Some (clocks_text clocks) };

    #[tactic(auto, using(base_shared::proofs::Tests::byte_flag))]
    fn fmt<W: fmt::Write>(&self, f: &mut Formatter<W>) -> fmt::Result {
        let first = self.first.unwrap_or(0);
        let last = self.last.unwrap_or(0);
        write!(f, "{} {first} {last}", self.ticks)?;
        write!(f, " {} {:08x}", u8::from(self.pending), self.hash)
    }
}

// Behind the letter of the call.
impl Display for Said {
    ghost output = { λ said. Some (said_text said) };

    fn fmt<W: fmt::Write>(&self, f: &mut Formatter<W>) -> fmt::Result {
        match self {
            Said::Byte(byte) => write!(f, "{:02x}", *byte),
            Said::Clocks(clocks) => clocks.fmt(f),
            Said::Level(name, bits) => write!(f, "{:08x} {}", *bits, *name),
            Said::Forecast(Some(clocks)) => write!(f, "{}", *clocks),
            Said::Forecast(None) => f.write_str("none"),
            Said::View(view) => write!(f, "{:08x}", view.hash),
        }
    }
}

pub fn put_refused(out: &mut Output, refusal: u8) {
    put!(out; "refused {refusal}\n");
}

// A call's answer: its letter and what it said.
pub fn put_answer<L: Display + Drop>(out: &mut Output, letter: L, told: Told) {
    match told {
        Told {
            refusal: 0,
            said: None,
        } => put!(out; "{letter}\n"),
        Told {
            refusal: 0,
            said: Some(said),
        } => put!(out; "{letter} {said}\n"),
        Told { refusal, .. } => put_refused(out, refusal),
    }
}
