// The counter at a moment, what a handler's steps do to it, and when the interrupt comes.
ghost use Rattle.std.specs.Prelude.{◌≡◌, false};
ghost use Rattle.registers.specs.Decode.{decode};
ghost use Rattle.irq.specs.Timing.{line_length, line_step};
ghost use Rattle.irq.specs.Writes.{irq_written_to};
ghost use Rattle.irq_clocks.specs.Clocks.{irq_clocked_times};
ghost use Rattle.scene_moments.specs.declared.moment.Moment.TheVariants.{Pending, Waiting};
ghost use Rattle.scene_moments.specs.Verdicts.{cleared_of, set_of};
ghost use Rattle.scene_moments.specs.Moments.{came, came_alone, came_in, clears, clocks_due, due_within, ended, step_pending};

use irq::{LINE, STEP, VrcIrq};
use irq_clocks::clocks::clock_times;
use registers::{IrqRegister, Register, decode};
use scene_steps::Step;

// A moment of a handler. Clocks are counted from the end of the writes.
#[derive(Clone, Copy)]
pub enum Moment {
    // Before the interrupt: the counter, and the clocks so far.
    Waiting(VrcIrq, u32),
    // While it is pending: the clock on which it was set, and the clocks so far.
    Pending(u32, u32),
    // The clocks on which it was set and on which a step cleared it, behind which nothing counts.
    Cleared(u32, u32),
}

// The clock on which the interrupt comes. Of one that comes inside the handler, the clocks on which it is set and on which the
// handler ends, with it pending, or clears it.
// `Never` is a case and no None, since a verdict has that case too.
#[derive(Clone, Copy, PartialEq, Eq)]
pub enum Came {
    Never,
    On(u32),
    Held(u32, u32),
    Lost(u32, u32),
}

// The clocks until the interrupt, if one is due. Where the forecast says 0, one clock is needed.
pub fn clocks_due(irq: VrcIrq) -> Option<u32>
    ensures { result ≡ clocks_due irq }
{
    irq.forecast().map(|clocks| clocks.max(1))
}

// A write of the handler, `VrcIrq::write_at` in place: most writes reach another register, and a counter that each of them gives back
// is put together anew from its fields.
#[inline(always)]
fn write(irq: &mut VrcIrq, revision_b: bool, addr: u16, val: u8)
    ensures { irq.new ≡ irq_written_to (decode revision_b addr) val irq.old }
{
    if let Some(Register::OfIrq(register)) = decode(revision_b, addr) {
        match register {
            IrqRegister::Reload => irq.reload = val,
            IrqRegister::Control => *irq = irq.write_control(val),
            IrqRegister::Acknowledge => {
                irq.enabled = irq.enabled_after_ack;
                irq.irq_pending = false;
            }
        }
    }
}

// The counter behind clocks that the handler waits, where the interrupt comes in none of them.
#[tactic(auto, using(crate::proofs::Waiting::undisturbed))]
fn gone_by(irq: VrcIrq, n: u32) -> VrcIrq
    requires { due_within n (clocks_due irq) ≡ false }
    ensures { result ≡ irq_clocked_times line_step line_length n irq }
{
    clock_times(irq, STEP, LINE, n)
}

// Whether a write to an address clears an interrupt that is pending.
fn clears(revision_b: bool, addr: u16) -> bool
    ensures { result ≡ clears (decode revision_b addr) }
{
    matches!(
        decode(revision_b, addr),
        Some(Register::OfIrq(IrqRegister::Control | IrqRegister::Acknowledge))
    )
}

// A step of the handler while the interrupt is pending.
#[inline(always)]
fn hold(set: u32, clock: u32, revision_b: bool, given: Step) -> Moment
    ensures { result ≡ step_pending revision_b given set clock }
{
    match given {
        Step::Write(addr, _) if clears(revision_b, addr) => Moment::Cleared(set, clock),
        Step::Write(..) => Moment::Pending(set, clock),
        Step::Clocks(n) => Moment::Pending(set, clock.wrapping_add(n)),
        Step::Reset => Moment::Cleared(set, clock),
    }
}

impl Moment {
    // The interrupt's clock, if nothing else happens.
    fn end(self) -> Came
        ensures { result ≡ ended self }
    {
        match self {
            Moment::Waiting(irq, clock) => match clocks_due(irq) {
                Some(clocks) => Came::On(clock.wrapping_add(clocks)),
                None => Came::Never,
            },
            Moment::Pending(set, end) => Came::Held(set, end),
            Moment::Cleared(set, cleared) => Came::Lost(set, cleared),
        }
    }
}

// How a handler ends in which the interrupt is pending. The loop carries a clock alone.
#[tactic(auto, using(crate::proofs::Clearing::stays_lost))]
fn held(set: u32, clock: u32, revision_b: bool, steps: &[Step]) -> Came
    ensures { result ≡ came revision_b steps.now (Pending set clock) }
{
    let mut at = clock;
    let mut rest = steps;
    while let [step, behind @ ..] = rest {
        match hold(set, at, revision_b, *step) {
            Moment::Pending(_, next) => at = next,
            moment => return moment.end(),
        }
        rest = behind;
    }
    Moment::Pending(set, at).end()
}

// When the interrupt comes if a handler of these steps runs at a clock that leaves the counter so. Most moments end before it, so
// the loop carries the counter and the clock alone, and no `Moment`, whose cases share their bytes.
#[inline(always)]
pub fn came_after(irq: VrcIrq, clock: u32, revision_b: bool, steps: &[Step]) -> Came
    ensures { result ≡ came revision_b steps.now (Waiting irq clock) }
{
    let mut q = irq;
    let mut at = clock;
    let mut rest = steps;
    while let [step, behind @ ..] = rest {
        match *step {
            Step::Write(addr, val) => write(&mut q, revision_b, addr, val),
            Step::Reset => q = q.reset(),
            // The interrupt may come in the midst of them.
            Step::Clocks(n) => match clocks_due(q) {
                Some(clocks) if clocks <= n => {
                    let set = at.wrapping_add(clocks);
                    return held(set, at.wrapping_add(n), revision_b, behind);
                }
                _ => {
                    q = gone_by(q, n);
                    at = at.wrapping_add(n);
                }
            },
        }
        rest = behind;
    }
    Moment::Waiting(q, at).end()
}

// The step of a handler in whose clocks the interrupt comes, if it comes in one of them.
pub fn came_in(irq: VrcIrq, clock: u32, revision_b: bool, steps: &[Step]) -> Option<usize>
    ensures { result ≡ came_in revision_b steps.now (Waiting irq clock) 0 }
{
    let mut q = irq;
    let mut at = clock;
    for (i, step) in steps.iter().enumerate() {
        match *step {
            Step::Write(addr, val) => write(&mut q, revision_b, addr, val),
            Step::Reset => q = q.reset(),
            Step::Clocks(n) => {
                if clocks_due(q).is_some_and(|clocks| clocks <= n) {
                    return Some(i);
                }
                q = gone_by(q, n);
                at = at.wrapping_add(n);
            }
        }
    }
    None
}

// When the interrupt comes if no handler runs. One that is pending already came at clock 0.
pub fn came_alone(irq: VrcIrq) -> Came
    ensures { result ≡ came_alone irq }
{
    if irq.irq_pending {
        Came::On(0)
    } else {
        Moment::Waiting(irq, 0).end()
    }
}

impl Came {
    // The clock on which the interrupt is set, if it comes.
    pub fn set(self) -> Option<u32>
        ensures { result ≡ set_of self }
    {
        match self {
            Came::Never => None,
            Came::On(set) | Came::Held(set, _) | Came::Lost(set, _) => Some(set),
        }
    }

    // The clock on which the handler clears it, if it does.
    pub fn cleared(self) -> Option<u32>
        ensures { result ≡ cleared_of self }
    {
        match self {
            Came::Never | Came::On(_) | Came::Held(..) => None,
            Came::Lost(_, cleared) => Some(cleared),
        }
    }
}
