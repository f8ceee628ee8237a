// The calls that check interrupt and sound values only: clock, reset, level, forecast. Crate vrc6_engine does them without the
// board around both.
ghost use Rattle.std.specs.Prelude.{◌≡◌, IfOk};
ghost use Rattle.base_shared.specs.Numbers.{answer_number};
ghost use Rattle.vrc6.specs.Boards.{engine_of, with_engine};
ghost use Rattle.vrc6.specs.Calls.{clock, forecast, level, reset};
ghost use Rattle.vrc6.specs.Checks.{engine_refusal};

use crate::board::{Board, Changed, Clocked, Forecasted, Leveled, ResetKind};
use base_shared::{Refusal, answer_number};
use vrc6_engine::Engine;

impl Board {
    // Interrupt and sound, which the board holds side by side.
    pub fn engine(&self) -> Engine
        ensures { result ≡ engine_of self.now }
    {
        Engine {
            irq: self.irq,
            audio: self.audio,
        }
    }

    fn set_engine(&mut self, engine: Engine)
        ensures { self.new ≡ with_engine self.old engine }
    {
        self.irq = engine.irq;
        self.audio = engine.audio;
    }

    // With the board lent: whether it ticked.
    #[inline(always)]
    pub fn lent_clock(&mut self) -> Result<bool, Refusal>
        ensures number { answer_number result ≡ engine_refusal self.old }
        ensures ticked { IfOk result (λ ticked. ticked ≡ (clock self.old).ticked) }
        ensures board_after { self.new ≡ (clock self.old).board }
    {
        let next = self.engine().clock()?;
        self.set_engine(next.engine);
        Ok(next.ticked)
    }

    // One answer for both ways, so that the board is copied once: clocks run in loops.
    #[inline(always)]
    pub fn clock(mut self) -> Clocked
        ensures { result ≡ clock self }
    {
        let answer = self.lent_clock();
        Clocked {
            board: self,
            ticked: answer.unwrap_or(false),
            refusal: answer_number(answer.map(|_| ())),
        }
    }

    // With the board lent. Soft and hard alike: the interrupt is cleared, of the sound halt only; no bank moves, and the bus setting
    // stays.
    pub fn lent_reset(&mut self) -> Result<(), Refusal>
        ensures number { answer_number result ≡ engine_refusal self.old }
        ensures board_after { self.new ≡ (reset self.old).board }
    {
        let engine = self.engine().reset()?;
        self.set_engine(engine);
        Ok(())
    }

    pub fn reset(mut self, _kind: ResetKind) -> Changed
        ensures { result ≡ reset self }
    {
        let answer = self.lent_reset();
        self.changed(answer)
    }

    // Level and forecast are one line each, which calls what differs.
    pub fn level(self) -> Leveled
        ensures { result ≡ level self }
    {
        Leveled {
            board: self,
            level: self.engine().level(),
        }
    }

    // The clocks until the interrupt; None if and only if the counter is not enabled.
    pub fn forecast(self) -> Forecasted
        ensures { result ≡ forecast self }
    {
        Forecasted {
            board: self,
            forecast: self.engine().forecast(),
        }
    }
}
