// The most frequent clock: of the sound it moves the timers only. The lent clock asks for it first.
ghost use Rattle.std.specs.Prelude.{◌≡◌, ◌-◌, ◌≤◌, IfSome, Ok, if◌then◌else◌};
ghost use Rattle.vrc6_engine.specs.Engine.{engine_clock, only_timers};

use crate::Engine;

// The timers of the three channels.
#[derive(Clone, Copy)]
pub struct Timers {
    pub pulse1: u16,
    pub pulse2: u16,
    pub saw: u16,
}

// A timer after a clock that does not start it again.
fn counted(timer: u16, enabled: bool) -> u16
    ensures { 1 ≤ timer → result ≡ (if enabled then timer - 1 else timer) }
{
    if enabled {
        timer.wrapping_sub(1)
    } else {
        timer
    }
}

impl Engine {
    // The timers after the next clock, if it moves nothing else of the sound. They come first, so that a clock in which one runs out
    // is known early.
    pub fn steady(self) -> Option<Timers>
        ensures { IfSome result
            (λ t. engine_clock self.irq self.audio ≡ Ok (only_timers self.irq self.audio t.pulse1 t.pulse2 t.saw)) }
    {
        let audio = self.audio;
        let pulse1 = counted(audio.pulse1.timer, audio.pulse1.enabled);
        let pulse2 = counted(audio.pulse2.timer, audio.pulse2.enabled);
        let saw = counted(audio.saw.timer, audio.saw.enabled);
        if (pulse1 == 0) | (pulse2 == 0) | (saw == 0) | audio.halt {
            return None;
        }
        let sum = audio.summed();
        if base_floats::same(audio.out, sum)
            & self.irq.in_range()
            & audio_channels::channels_in_range(audio.pulse1, audio.pulse2, audio.saw)
        {
            return Some(Timers {
                pulse1,
                pulse2,
                saw,
            });
        }
        None
    }
}
