// The counter after some clocks, for any step and line length: a division gives what ticks, so that none of them is clocked.
ghost use Rattle.std.specs.Prelude.{◌≡◌, ◌+◌, ◌*◌, ◌^◌, ◌≤◌, ◌<◌, min};
ghost use Rattle.base_steps.specs.Falls.{Pace};
ghost use Rattle.irq.specs.Interrupt.{irq_at};
ghost use Rattle.irq_clocks.specs.Clocks.{irq_clocked_times, lines_gone, Unset};

use irq::VrcIrq;

// The lines that end within some clocks, and the prescaler after them.
#[derive(Clone, Copy)]
pub struct Lines {
    pub ended: u32,
    pub prescaler: u16,
}

// The lines of n clocks that count them. A prescaler above a line's length only falls at first.
#[tactic(auto, using(crate::proofs::Gains::by_quotient, crate::proofs::Gains::none_ended, crate::proofs::Gains::gone))]
pub fn lines_gone(step: u16, line: u16, prescaler: u16, n: u32) -> Lines
    requires pace { Pace step line }
    requires n_bound { step * n + 65535 < 2 ^ 32 }
    ensures { result ≡ lines_gone step line prescaler n }
{
    let given = u32::from(prescaler);
    let length = u32::from(line);
    let fallen = u32::from(step) * n;
    if fallen < given {
        return Lines {
            ended: 0,
            prescaler: (given - fallen) as u16,
        };
    }
    // Where step and length are equal, a prescaler of 0 would give a line too many.
    let ended = n.min((fallen + length - given) / length);
    Lines {
        ended,
        prescaler: (given + length * ended - fallen) as u16,
    }
}

// The counter that has gained ticks, with another prescaler.
fn gained(irq: VrcIrq, ticks: u32, prescaler: u16) -> VrcIrq
    requires { irq.counter + ticks ≤ 255 }
    ensures { result ≡ irq_at irq (irq.counter + ticks) prescaler irq.irq_pending }
{
    VrcIrq {
        counter: irq.counter + ticks as u8,
        prescalar_counter: prescaler,
        ..irq
    }
}

// The counter after n clocks, none of which sets pending. Step and line come one by one, not as a struct: the one caller gives two
// constants.
#[tactic(auto, using(crate::proofs::Runs::idle_law, crate::proofs::Gains::cycles_low, crate::proofs::Gains::by_cycles, crate::proofs::Gains::few, crate::proofs::Gains::lines_low, crate::proofs::Gains::by_lines))]
pub fn clock_times(irq: VrcIrq, step: u16, line: u16, n: u32) -> VrcIrq
    requires pace { Pace step line }
    requires unset { Unset step line n irq }
    ensures { result ≡ irq_clocked_times step line n irq }
{
    if irq.enabled {
        let given = irq.prescalar_counter;
        if irq.cycle_mode {
            return gained(irq, n, given);
        }
        let gone = lines_gone(step, line, given, n);
        return gained(irq, gone.ended, gone.prescaler);
    }
    irq
}
