// The interrupt counter of the VRC chips, which ticks at each clock or once a line (VRC IRQ; vrc_irq.rs).
#![tactic(auto)]

ghost use Rattle.std.specs.Prelude.{◌≡◌};
ghost use Rattle.registers.specs.Decode.{decode};
ghost use Rattle.irq.specs.Interrupt.{irq_tick, irq_reload, irq_acknowledged, irq_zero};
ghost use Rattle.irq.specs.Timing.{prescaler_fallen, clock_answer, control_written, irq_held, forecast_answer};
ghost use Rattle.irq.specs.Writes.{irq_written, irq_written_to};

use base_shared::bit;
use registers::{IrqRegister, Register, decode};

// What a clock takes from the prescaler.
pub const STEP: u16 = 3;
// What a line gives it.
pub const LINE: u16 = 341;

// In this order it takes ten bytes. A struct of eight is passed as one number, which is slower to take apart.
#[repr(C)]
#[derive(Clone, Copy, Default, PartialEq, Eq)]
pub struct VrcIrq {
    pub reload: u8,
    pub prescalar_counter: u16,
    pub counter: u8,
    pub irq_pending: bool,
    pub enabled: bool,
    pub enabled_after_ack: bool,
    pub cycle_mode: bool,
}

// A clock's answer: the counter after it, and whether it ticked.
#[derive(Clone, Copy)]
pub struct IrqClocked {
    pub irq: VrcIrq,
    pub ticked: bool,
}

// The prescaler after a clock that counts lines. What is over at the end of a line is carried into the next.
fn fallen(prescaler: u16) -> u16
    ensures { result ≡ prescaler_fallen prescaler }
{
    if prescaler <= STEP {
        prescaler + (LINE - STEP)
    } else {
        prescaler - STEP
    }
}

impl VrcIrq {
    pub fn new() -> Self
        ensures { result ≡ irq_zero }
    {
        Self::default()
    }

    pub fn write_reload(self, val: u8) -> Self
        ensures { result ≡ irq_reload val self }
    {
        Self {
            reload: val,
            ..self
        }
    }

    pub fn write_control(mut self, val: u8) -> Self
        ensures { result ≡ control_written val self }
    {
        self.enabled_after_ack = bit(val, 0);
        self.enabled = bit(val, 1);
        self.cycle_mode = bit(val, 2);
        self.irq_pending = false;
        if self.enabled {
            self.counter = self.reload;
            self.prescalar_counter = LINE;
        }
        self
    }

    pub fn acknowledge(self) -> Self
        ensures { result ≡ irq_acknowledged self }
    {
        Self {
            enabled: self.enabled_after_ack,
            irq_pending: false,
            ..self
        }
    }

    pub fn write_register(self, register: IrqRegister, val: u8) -> Self
        ensures { result ≡ irq_written register val self }
    {
        match register {
            IrqRegister::Reload => self.write_reload(val),
            IrqRegister::Control => self.write_control(val),
            IrqRegister::Acknowledge => self.acknowledge(),
        }
    }

    // A CPU write, which changes the counter only where it reaches one of its registers.
    pub fn write_at(self, revision_b: bool, addr: u16, val: u8) -> Self
        ensures { result ≡ irq_written_to (decode revision_b addr) val self }
    {
        match decode(revision_b, addr) {
            Some(Register::OfIrq(register)) => self.write_register(register, val),
            _ => self,
        }
    }

    // A tick, with the prescaler that its clock leaves.
    fn tick(mut self, prescaler: u16) -> Self
        ensures { result ≡ irq_tick prescaler self }
    {
        self.prescalar_counter = prescaler;
        if self.counter == 255 {
            self.counter = self.reload;
            self.irq_pending = true;
        } else {
            self.counter += 1;
        }
        self
    }

    pub fn clock(mut self) -> IrqClocked
        ensures { result ≡ clock_answer self }
    {
        if self.enabled {
            let given = self.prescalar_counter;
            let rest = fallen(given);
            // Cycle mode leaves the prescaler alone.
            if self.cycle_mode {
                let irq = self.tick(given);
                return IrqClocked { irq, ticked: true };
            }
            if given <= STEP {
                let irq = self.tick(rest);
                return IrqClocked { irq, ticked: true };
            }
            self.prescalar_counter = rest;
            return IrqClocked {
                irq: self,
                ticked: false,
            };
        }
        IrqClocked {
            irq: self,
            ticked: false,
        }
    }

    // Soft or hard alike.
    pub fn reset(self) -> Self
        ensures { result ≡ irq_zero }
    {
        Self::new()
    }

    pub fn in_range(self) -> bool
        ensures { result ≡ irq_held self }
    {
        self.prescalar_counter <= LINE
    }

    // Document 01's forecast; none if and only if the counter isn't enabled.
    pub fn forecast(self) -> Option<u32>
        ensures { result ≡ forecast_answer self }
    {
        if !self.enabled {
            return None;
        }
        let counter = u32::from(self.counter);
        if self.cycle_mode {
            return Some(256 - counter);
        }
        // How far the prescaler has to fall, divided by what a clock takes and rounded up.
        let far = u32::from(LINE) * (255 - counter) + u32::from(self.prescalar_counter);
        Some(far.div_ceil(u32::from(STEP)))
    }
}
