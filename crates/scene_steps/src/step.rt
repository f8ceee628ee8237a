// A step of a scene: a CPU write `AAAA=BB`, clocks `+N`, or `reset`, capitals or not.
ghost use Rattle.std.specs.Prelude.{◌≡◌, Some};
ghost use Rattle.scene_steps.specs.Steps.{code_of, hex_of, step_coded, step_of, write_from};
ghost use Rattle.scene_steps.specs.Texts.{step_error_text};

use crate::hex::in_hex;
use scene_cells::marks::split_once;
use std::fmt;
use text_words::names::same_name;
use text_words::number::{NumberError, in_base};

// The most clocks of one step.
pub const MOST_CLOCKS: u32 = 1000000;

// The words of a cell play the steps in their order.
#[derive(Clone, Copy, PartialEq, Eq)]
pub enum Step {
    Write(u16, u8),
    Clocks(u32),
    Reset,
}

// Why a word is no step.
#[derive(Clone, Copy, PartialEq, Eq)]
pub enum StepError {
    BadAddress(NumberError),
    BadByte(NumberError),
    BadClocks(NumberError),
    NoStep,
}

impl fmt::Display for StepError {
    ghost output = { λ error. Some (step_error_text error) };

    fn fmt<W: fmt::Write>(&self, f: &mut fmt::Formatter<W>) -> fmt::Result {
        f.write_str(match self {
            StepError::BadAddress(NumberError::NoNumber) => "is no hexadecimal address",
            StepError::BadAddress(NumberError::TooLarge) => "has an address above FFFF",
            StepError::BadByte(NumberError::NoNumber) => "is no hexadecimal byte",
            StepError::BadByte(NumberError::TooLarge) => "has a byte above FF",
            StepError::BadClocks(NumberError::NoNumber) => "is no number of clocks",
            StepError::BadClocks(NumberError::TooLarge) => "is above 1000000 clocks",
            StepError::NoStep => "is no step: AAAA=BB, +N or reset",
        })
    }
}

// An address of 16 bits and a byte of 8, as the limits are.
fn write_of(address: &[u8], byte: &[u8]) -> Result<Step, StepError>
    ensures { result ≡ write_from (hex_of 65535 address.now) (hex_of 255 byte.now) }
{
    let addr = in_hex(address, 0xFFFF).map_err(StepError::BadAddress)?;
    let val = in_hex(byte, 0xFF).map_err(StepError::BadByte)?;
    Ok(Step::Write(addr as u16, val as u8))
}

// What a word says.
#[tactic(auto, unfolding(crate::specs::Steps::step_of))]
pub fn step_of(word: &[u8]) -> Result<Step, StepError>
    ensures { result ≡ step_of word.now }
{
    if same_name(word, b"reset") {
        return Ok(Step::Reset);
    }
    if let [b'+', digits @ ..] = word {
        let clocks = in_base(digits, 10, MOST_CLOCKS).map_err(StepError::BadClocks)?;
        return Ok(Step::Clocks(clocks));
    }
    let (address, byte) = split_once(word, b'=').ok_or(StepError::NoStep)?;
    write_of(address, byte)
}

// A step as one number: its kind above 24 bits, what it carries below. Lists hold steps themselves; the number is what CodeLaw speaks of.
impl From<Step> for u32 {
    ghost from_gives = { λ step code. code ≡ code_of step };

    fn from(step: Step) -> u32 {
        match step {
            Step::Write(addr, val) => u32::from(addr) * 256 + u32::from(val),
            Step::Clocks(n) => 0x100_0000 + n % 0x100_0000,
            Step::Reset => 0x200_0000,
        }
    }
}

// The step of such a number.
impl TryFrom<u32> for Step {
    type Error = StepError;

    ghost try_from_gives = { λ code step. step ≡ step_coded code };

    fn try_from(code: u32) -> Result<Step, StepError> {
        let low = code % 0x100_0000;
        match code / 0x100_0000 {
            0 => Ok(Step::Write((low / 256) as u16, (low % 256) as u8)),
            1 => Ok(Step::Clocks(low)),
            2 => Ok(Step::Reset),
            _ => Err(StepError::NoStep),
        }
    }
}
