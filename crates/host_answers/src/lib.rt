// What the calls for C answer: numbers in place of enums, which do not cross.
#![tactic(auto)]

ghost use Rattle.std.specs.Prelude.{◌≡◌};
ghost use Rattle.vrc6.specs.Boards.{held_by};
ghost use Rattle.host_answers.specs.Encoded.{forecast_encoded, level_encoded, page_at};

use audio::Level;
use base_shared::Refusal;
use vrc6::Board;

// The level; its name, 0 silent, 1 held, 2 playing; the refusal's number. Refused, level and name are 0.
#[repr(C)]
#[derive(Clone, Copy, Default)]
pub struct EncodedLevel {
    pub level: f32,
    pub name: u8,
    pub refusal: u8,
}

// The clocks until the interrupt, 0 where the counter is not armed or the call is refused.
#[repr(C)]
#[derive(Clone, Copy, Debug, Default, PartialEq, Eq)]
pub struct EncodedForecast {
    pub clocks: u32,
    pub armed: bool,
    pub refusal: u8,
}

// A page is the 1,024 bytes from offset of the fixed buffer, or of the changing one. Refused, offset is 0.
#[repr(C)]
#[derive(Clone, Copy, Debug, Default, PartialEq, Eq)]
pub struct PageAt {
    pub offset: u32,
    pub changing: bool,
    pub refusal: u8,
}

impl From<Level> for EncodedLevel {
    ghost from_gives = { λ level encoded. encoded ≡ level_encoded level };

    fn from(level: Level) -> EncodedLevel {
        match level {
            Level::Silent(level) => EncodedLevel {
                level,
                ..EncodedLevel::default()
            },
            Level::Held(level) => EncodedLevel {
                level,
                name: 1,
                ..EncodedLevel::default()
            },
            Level::Playing(level) => EncodedLevel {
                level,
                name: 2,
                ..EncodedLevel::default()
            },
            Level::Refused(refusal) => EncodedLevel {
                refusal: u8::from(refusal),
                ..EncodedLevel::default()
            },
        }
    }
}

impl From<Result<Option<u32>, Refusal>> for EncodedForecast {
    ghost from_gives = { λ forecast encoded. encoded ≡ forecast_encoded forecast };

    fn from(forecast: Result<Option<u32>, Refusal>) -> EncodedForecast {
        match forecast {
            Ok(None) => EncodedForecast::default(),
            Ok(Some(clocks)) => EncodedForecast {
                clocks,
                armed: true,
                ..EncodedForecast::default()
            },
            Err(refusal) => EncodedForecast {
                refusal: u8::from(refusal),
                ..EncodedForecast::default()
            },
        }
    }
}

// The place of a picture entry, with the buffer told apart. `checked_sub` is that test by itself: none where the place lies in the fixed buffer,
// and otherwise how far it lies in the changing one.
pub fn page_at(board: &Board, fixed: &[u8], changing: &[u8], addr: u16) -> PageAt
    ensures { result ≡ page_at (held_by board.now fixed.now changing.now) addr }
{
    let access = board.picture_access(addr);
    if let Err(refusal) = access.check(fixed.len(), changing.len()) {
        return PageAt {
            refusal: u8::from(refusal),
            ..PageAt::default()
        };
    }
    let offset = access.page.offset();
    match (offset as usize).checked_sub(fixed.len()) {
        None => PageAt {
            offset,
            ..PageAt::default()
        },
        Some(rest) => PageAt {
            offset: rest as u32,
            changing: true,
            ..PageAt::default()
        },
    }
}
