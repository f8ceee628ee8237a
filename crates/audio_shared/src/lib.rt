// What pulses and the saw have in common: the frequency. Functions over numbers, since each channel holds its own, as in the Rust; not
// a trait, since nothing here takes a channel of either kind.
#![tactic(auto)]

ghost use Rattle.std.specs.Prelude.{◌≡◌, ◌≤◌};
ghost use Rattle.audio_shared.specs.Channels.{high_bits, low_byte, period_of};

// The frequency with another low byte.
pub fn low_byte(frequency: u16, val: u8) -> u16
    ensures { result ≡ low_byte frequency val }
{
    frequency / 256 % 16 * 256 + u16::from(val)
}

// The frequency with other high bits, of which there are four.
pub fn high_bits(frequency: u16, val: u8) -> u16
    ensures { result ≡ high_bits frequency val }
{
    u16::from(val) % 16 * 256 + frequency % 256
}

// What a timer that runs out starts again from: the frequency, shifted right, and 1.
#[inline(always)]
pub fn period(frequency: u16, shift: u8) -> u16
    requires { (frequency ≤ 4095) × (shift ≤ 8) }
    ensures { result ≡ period_of frequency shift }
{
    (frequency >> shift) + 1
}
