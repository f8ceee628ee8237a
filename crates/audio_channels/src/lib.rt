// The channels of the sound together: the test of their ranges.
#![tactic(auto)]

ghost use Rattle.std.specs.Prelude.{◌≡◌};
ghost use Rattle.audio_channels.specs.Ranges.{channels_in_range};

use audio_pulse::Pulse;
use audio_saw::Saw;

// Whether each value of the three channels is in its range; every accumulator is. The tests use &, which takes no
// branch, and equal limits stand side by side, so that the compiler can test them as one.
#[tactic(auto, using(crate::proofs::Joined::channels_joined))]
pub fn channels_in_range(p: Pulse, q: Pulse, s: Saw) -> bool
    ensures { result ≡ channels_in_range p q s }
{
    (p.volume <= 15)
        & (q.volume <= 15)
        & (p.step <= 15)
        & (q.step <= 15)
        & (p.duty_cycle <= 7)
        & (q.duty_cycle <= 7)
        & (p.frequency <= 4095)
        & (q.frequency <= 4095)
        & (s.frequency <= 4095)
        & ((1 <= p.timer) & (p.timer <= 4096))
        & ((1 <= q.timer) & (q.timer <= 4096))
        & ((1 <= s.timer) & (s.timer <= 4096))
        & (s.accum_rate <= 63)
        & (s.step <= 13)
        & (p.freq_shift % 4 == 0)
        & (q.freq_shift % 4 == 0)
        & (s.freq_shift % 4 == 0)
        & (p.freq_shift <= 8)
        & (q.freq_shift <= 8)
        & (s.freq_shift <= 8)
}
