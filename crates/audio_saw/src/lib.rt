// The saw channel ($B000..2): its registers, clock and level (`Saw` of the Rust).
#![tactic(auto)]

ghost use Rattle.std.specs.Prelude.{◌≡◌};
ghost use Rattle.base_floats.specs.Wholes.{float};
ghost use Rattle.audio_saw.specs.Saws.{saw_at, saw_written, saw_shifted, saw_clocked, saw_level, accumulated};
ghost use Rattle.audio_saw.specs.Required.{SawIn};

use audio_shared::{high_bits, low_byte, period};
use base_shared::bit;
use registers::ChannelRegister;

// The Rust's `Saw`, field by field, which C and scripts name: so it and `Pulse` share no struct of the frequency, timer and shift.
// What `new`, `silent` and `set_freq_shift` set there is a line each, which a trait over both would not shorten.
#[repr(C)]
#[derive(Clone, Copy, Default, PartialEq, Eq)]
pub struct Saw {
    pub enabled: bool,
    pub accum: u8,
    pub accum_rate: u8,
    pub frequency: u16,
    pub timer: u16,
    pub step: u8,
    pub freq_shift: u8,
}

// The accumulator as a step begins: cleared at 0, the rate added at the other even steps. It has
// 8 bits, and the carry is discarded.
fn accumulated(step: u8, accum: u8, rate: u8) -> u8
    ensures { result ≡ accumulated step accum rate }
{
    if step == 0 {
        0
    } else if step % 2 == 0 {
        accum.wrapping_add(rate)
    } else {
        accum
    }
}

impl Saw {
    // A saw that is off, with this frequency and timer.
    pub fn silent(frequency: u16) -> Self
        ensures { result ≡ saw_at frequency }
    {
        Self {
            frequency,
            timer: frequency,
            ..Self::default()
        }
    }

    pub fn new() -> Self
        ensures { result ≡ saw_at 1 }
    {
        Self::silent(1)
    }

    #[tactic(auto, unfolding(crate::specs::Saws::saw_written))]
    pub fn write_register(mut self, register: ChannelRegister, val: u8) -> Self
        ensures { result ≡ saw_written register val self }
    {
        match register {
            ChannelRegister::Volume => self.accum_rate = val % 64,
            ChannelRegister::FrequencyLow => self.frequency = low_byte(self.frequency, val),
            ChannelRegister::FrequencyHigh => {
                self.frequency = high_bits(self.frequency, val);
                self.enabled = bit(val, 7);
                if !self.enabled {
                    self.accum = 0;
                    self.step = 0;
                }
            }
        }
        self
    }

    pub fn set_freq_shift(self, val: u8) -> Self
        ensures { result ≡ saw_shifted val self }
    {
        Self {
            freq_shift: val,
            ..self
        }
    }

    // The Rust's `volume`: the accumulator's high five bits.
    #[tactic(auto, unfolding(crate::specs::Saws::saw_level))]
    pub fn level(self) -> f32
        ensures { result ≡ float (saw_level self) }
    {
        if self.enabled {
            (self.accum / 8) as f32
        } else {
            0.0
        }
    }

    #[tactic(auto, unfolding(crate::specs::Saws::saw_clocked))]
    pub fn clock(mut self) -> Self
        requires { SawIn self }
        ensures { result ≡ saw_clocked self }
    {
        if self.enabled {
            self.timer -= 1;
            if self.timer == 0 {
                self.step = (self.step + 1) % 14;
                self.timer = period(self.frequency, self.freq_shift);
                self.accum = accumulated(self.step, self.accum, self.accum_rate);
            }
        }
        self
    }
}
