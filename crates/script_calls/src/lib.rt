// The call of the board that a line makes.
#![tactic(auto)]

ghost use Rattle.std.specs.Prelude.{◌≡◌};
ghost use Rattle.script_calls.specs.Calls.{call_of};

use script_lines::CallLine;
use script_lines::values::{byte, half};
use vrc6_calls::Call;

// The board's call, with the arguments of the line: of a number that is too large its low bits.
pub fn call_of(call: CallLine) -> Call
    ensures { result ≡ call_of call }
{
    match call {
        CallLine::Read(addr) => Call::CpuRead(half(addr), 0),
        CallLine::Write(addr, val) => Call::CpuWrite(half(addr), byte(val)),
        CallLine::PictureRead(addr) => Call::PictureRead(half(addr)),
        CallLine::PictureWrite(addr, val) => Call::PictureWrite(half(addr), byte(val)),
        CallLine::View(addr) => Call::PageView(half(addr)),
        CallLine::SoftReset => Call::SoftReset,
        CallLine::HardReset => Call::HardReset,
        CallLine::Level => Call::ReadLevel,
        CallLine::Forecast => Call::ReadForecast,
        CallLine::ReadBus(addr, bus) => Call::CpuRead(half(addr), byte(bus)),
    }
}
