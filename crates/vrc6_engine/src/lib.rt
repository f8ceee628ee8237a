// Interrupt and sound without the board around them: what clock, reset, level and forecast do with both.
#![tactic(auto)]

ghost use Rattle.std.specs.Prelude.{◌≡◌, MatchResult, false, true};
ghost use Rattle.base_shared.specs.declared.Refusal.TheVariants.{Range};
ghost use Rattle.vrc6_engine.specs.Engine.{engine_clock, engine_forecast, engine_level, engine_ok, engine_reset};

use audio::{Audio, Level};
use base_shared::Refusal;
use irq::VrcIrq;

pub mod steady;

// What a clock moves: interrupt and sound.
#[derive(Clone, Copy)]
pub struct Engine {
    pub irq: VrcIrq,
    pub audio: Audio,
}

// Interrupt and sound after a clock, and whether it ticked; irq's answer has the counter alone, by its own name.
#[derive(Clone, Copy)]
pub struct EngineClocked {
    pub engine: Engine,
    pub ticked: bool,
}

impl Engine {
    // Whether interrupt and sound values are in range.
    pub fn in_range(self) -> bool
        ensures { result ≡ engine_ok self.irq self.audio }
    {
        self.irq.in_range() & self.audio.in_range()
    }

    // Why a call on these values is refused, if it is.
    #[inline(always)]
    fn check(self) -> Result<(), Refusal>
        ensures { MatchResult result (λ done. engine_ok self.irq self.audio ≡ true)
            (λ refusal. (refusal ≡ Range) × (engine_ok self.irq self.audio ≡ false)) }
    {
        if self.in_range() {
            Ok(())
        } else {
            Err(Refusal::Range)
        }
    }

    // Interrupt, then sound.
    #[inline(always)]
    #[tactic(auto, using(crate::proofs::Timed::clock_in))]
    pub fn clock(self) -> Result<EngineClocked, Refusal>
        ensures { result ≡ engine_clock self.irq self.audio }
    {
        self.check()?;
        let next = self.irq.clock();
        Ok(EngineClocked {
            engine: Engine {
                irq: next.irq,
                audio: self.audio.clock(),
            },
            ticked: next.ticked,
        })
    }

    // The interrupt is cleared, of the sound halt only.
    pub fn reset(self) -> Result<Engine, Refusal>
        ensures { result ≡ engine_reset self.irq self.audio }
    {
        self.check()?;
        Ok(Engine {
            irq: self.irq.reset(),
            audio: self.audio.reset(),
        })
    }

    pub fn level(self) -> Level
        ensures { result ≡ engine_level self.irq self.audio }
    {
        match self.check() {
            Ok(()) => self.audio.named_output(),
            Err(refusal) => Level::Refused(refusal),
        }
    }

    // The clocks until the interrupt; None if and only if the counter is not enabled.
    pub fn forecast(self) -> Result<Option<u32>, Refusal>
        ensures { result ≡ engine_forecast self.irq self.audio }
    {
        self.check()?;
        Ok(self.irq.forecast())
    }
}
