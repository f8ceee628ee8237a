// The values of a channel by their names.
ghost use Rattle.std.specs.Prelude.{◌≡◌, ℕ};
ghost use Rattle.script_lines.specs.declared.values.ChannelField.{ChannelField};
ghost use Rattle.script_state.specs.Channels.{pulse_value, pulse_with, saw_value, saw_with};

use audio_pulse::Pulse;
use audio_saw::Saw;
use script_lines::values::{ChannelField, byte, half};

// A channel, whose values are shown and set as numbers: a flag is set by any but 0. What it has not is 0,
// and stays: a script names the fields of both, and no field is wrong of either.
pub trait Channel {
    ghost shown: { Self → ChannelField → ℕ };

    ghost changed: { Self → ChannelField → ℕ → Self };

    fn value(&self, field: ChannelField) -> u32
        ensures { result ≡ shown self.now field };

    fn set(&mut self, field: ChannelField, n: u32)
        ensures { self.new ≡ changed self.old field n };
}

impl Channel for Pulse {
    ghost shown = { pulse_value };

    ghost changed = { pulse_with };

    #[tactic(auto, using(base_shared::proofs::Tests::byte_flag))]
    fn value(&self, field: ChannelField) -> u32 {
        match field {
            ChannelField::Enabled => u32::from(self.enabled),
            ChannelField::Volume => u32::from(self.volume),
            ChannelField::Duty => u32::from(self.duty_cycle),
            ChannelField::IgnoreDuty => u32::from(self.ignore_duty),
            ChannelField::Frequency => u32::from(self.frequency),
            ChannelField::Timer => u32::from(self.timer),
            ChannelField::Step => u32::from(self.step),
            ChannelField::Shift => u32::from(self.freq_shift),
            ChannelField::Accumulator | ChannelField::Rate => 0,
        }
    }

    fn set(&mut self, field: ChannelField, n: u32) {
        match field {
            ChannelField::Enabled => self.enabled = n != 0,
            ChannelField::Volume => self.volume = byte(n),
            ChannelField::Duty => self.duty_cycle = byte(n),
            ChannelField::IgnoreDuty => self.ignore_duty = n != 0,
            ChannelField::Frequency => self.frequency = half(n),
            ChannelField::Timer => self.timer = half(n),
            ChannelField::Step => self.step = byte(n),
            ChannelField::Shift => self.freq_shift = byte(n),
            ChannelField::Accumulator | ChannelField::Rate => {}
        }
    }
}

impl Channel for Saw {
    ghost shown = { saw_value };

    ghost changed = { saw_with };

    #[tactic(auto, using(base_shared::proofs::Tests::byte_flag))]
    fn value(&self, field: ChannelField) -> u32 {
        match field {
            ChannelField::Enabled => u32::from(self.enabled),
            ChannelField::Frequency => u32::from(self.frequency),
            ChannelField::Timer => u32::from(self.timer),
            ChannelField::Step => u32::from(self.step),
            ChannelField::Shift => u32::from(self.freq_shift),
            ChannelField::Accumulator => u32::from(self.accum),
            ChannelField::Rate => u32::from(self.accum_rate),
            ChannelField::Volume | ChannelField::Duty | ChannelField::IgnoreDuty => 0,
        }
    }

    fn set(&mut self, field: ChannelField, n: u32) {
        match field {
            ChannelField::Enabled => self.enabled = n != 0,
            ChannelField::Frequency => self.frequency = half(n),
            ChannelField::Timer => self.timer = half(n),
            ChannelField::Step => self.step = byte(n),
            ChannelField::Shift => self.freq_shift = byte(n),
            ChannelField::Accumulator => self.accum = byte(n),
            ChannelField::Rate => self.accum_rate = byte(n),
            ChannelField::Volume | ChannelField::Duty | ChannelField::IgnoreDuty => {}
        }
    }
}
