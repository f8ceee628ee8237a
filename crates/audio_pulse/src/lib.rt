// A pulse channel ($9000..2 and $A000..2): its registers, clock and level (`Pulse` of the Rust).
#![tactic(auto)]

ghost use Rattle.std.specs.Prelude.{◌≡◌};
ghost use Rattle.base_floats.specs.Wholes.{float};
ghost use Rattle.audio_pulse.specs.Pulses.{pulse_at, pulse_written, pulse_shifted, pulse_clocked, pulse_level};
ghost use Rattle.audio_pulse.specs.Required.{PulseIn};

use audio_shared::{high_bits, low_byte, period};
use base_shared::bit;
use registers::ChannelRegister;

// The Rust's `Pulse`, field by field, which C and scripts name: so it and `Saw` share no struct of the frequency, timer and shift.
// What `new`, `silent` and `set_freq_shift` set there is a line each, which a trait over both would not shorten.
#[repr(C)]
#[derive(Clone, Copy, Default, PartialEq, Eq)]
pub struct Pulse {
    pub enabled: bool,
    pub volume: u8,
    pub duty_cycle: u8,
    pub ignore_duty: bool,
    pub frequency: u16,
    pub timer: u16,
    pub step: u8,
    pub freq_shift: u8,
}

impl Pulse {
    // A pulse that is off, with this frequency and timer.
    pub fn silent(frequency: u16) -> Self
        ensures { result ≡ pulse_at frequency }
    {
        Self {
            frequency,
            timer: frequency,
            ..Self::default()
        }
    }

    pub fn new() -> Self
        ensures { result ≡ pulse_at 1 }
    {
        Self::silent(1)
    }

    #[tactic(auto, unfolding(crate::specs::Pulses::pulse_written))]
    pub fn write_register(mut self, register: ChannelRegister, val: u8) -> Self
        ensures { result ≡ pulse_written register val self }
    {
        match register {
            ChannelRegister::Volume => {
                self.volume = val % 16;
                self.duty_cycle = val / 16 % 8;
                self.ignore_duty = bit(val, 7);
            }
            ChannelRegister::FrequencyLow => self.frequency = low_byte(self.frequency, val),
            ChannelRegister::FrequencyHigh => {
                self.frequency = high_bits(self.frequency, val);
                self.enabled = bit(val, 7);
                if !self.enabled {
                    self.step = 0;
                }
            }
        }
        self
    }

    pub fn set_freq_shift(self, val: u8) -> Self
        ensures { result ≡ pulse_shifted val self }
    {
        Self {
            freq_shift: val,
            ..self
        }
    }

    // The Rust's `volume`, whose name a field has here. Nested tests run faster than joined ones: while the sound is
    // steady their outcome stays the same.
    #[tactic(auto, unfolding(crate::specs::Pulses::pulse_level))]
    pub fn level(self) -> f32
        ensures { result ≡ float (pulse_level self) }
    {
        if self.enabled {
            if self.step <= self.duty_cycle {
                return self.volume as f32;
            }
            if self.ignore_duty {
                return self.volume as f32;
            }
        }
        0.0
    }

    #[tactic(auto, unfolding(crate::specs::Pulses::pulse_clocked))]
    pub fn clock(mut self) -> Self
        requires { PulseIn self }
        ensures { result ≡ pulse_clocked self }
    {
        if self.enabled {
            self.timer -= 1;
            if self.timer == 0 {
                self.step = (self.step + 1) % 16;
                self.timer = period(self.frequency, self.freq_shift);
            }
        }
        self
    }
}
