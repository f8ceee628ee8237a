// Runs of clocks at which the menu has one verdict.
ghost use Rattle.std.specs.Prelude.{◌≡◌, ◌≢◌, ◌+◌, ◌^◌, ◌<◌, true, false};
ghost use Rattle.scene_moments.specs.Verdicts.{line_told, mark_of};
ghost use Rattle.scene_sweep.specs.Runs.{RunOf, run_of, run_with, seen_at};

use crate::spans::{Span, spanned};
use irq::VrcIrq;
use scene_moments::moment::came_after;
use scene_moments::verdict::{Seen, Verdict, Window};
use scene_steps::Step;

// What all moments of a sweep share.
#[derive(Clone, Copy, PartialEq, Eq)]
pub struct Sweep {
    pub window: Window,
    pub revision_b: bool,
}

// A menu that is swept.
#[derive(Clone, Copy)]
pub struct MenuSweep<'a> {
    pub sweep: Sweep,
    pub menu: &'a [Step],
}

// What is seen at a run's first clock, the clock behind its last, the counter at that clock, and the clocks that count of its
// interrupts and on which they are cleared, if there are such.
#[derive(Clone, Copy)]
pub struct Run {
    pub first: Seen,
    pub to: u32,
    pub irq: VrcIrq,
    pub set: Option<Span>,
    pub cleared: Option<Span>,
}

impl Run {
    // Of the first clock alone, before which the counter stands so.
    fn of(seen: Seen, irq: VrcIrq, from: u32) -> Run
        requires { from + 1 < 2 ^ 32 }
        ensures { result ≡ run_of seen irq from }
    {
        Run {
            first: seen,
            to: from + 1,
            irq: irq.clock().irq,
            set: spanned(None, seen.set),
            cleared: spanned(None, seen.cleared),
        }
    }

    // With the next clock. A span is written anew only where there is a clock more.
    #[inline(always)]
    fn with(mut self, seen: Seen) -> Run
        requires { self.to + 1 < 2 ^ 32 }
        ensures { result ≡ run_with self seen }
    {
        self.to += 1;
        self.irq = self.irq.clock().irq;
        if let Some(n) = seen.set {
            self.set = spanned(self.set, Some(n));
        }
        if let Some(n) = seen.cleared {
            self.cleared = spanned(self.cleared, Some(n));
        }
        self
    }
}

// Of one sweep, two verdicts with the same mark and line are the same: both tell how far off it is.
fn same(a: Verdict, b: Verdict) -> bool
    ensures same { result ≡ true → (mark_of a ≡ mark_of b) × (line_told a ≡ line_told b) }
    ensures other { result ≡ false → a ≢ b }
{
    a.mark() == b.mark() && a.line() == b.line()
}

impl MenuSweep<'_> {
    // What is seen if the menu runs at clock k, which leaves the counter so.
    #[inline(always)]
    fn seen(self, irq: VrcIrq, k: u32) -> Seen
        ensures { result ≡ seen_at self.entry.sweep self.entry.menu.now irq k }
    {
        let Sweep { window, revision_b } = self.sweep;
        window.seen_as(came_after(irq, k, revision_b, self.menu))
    }

    // The run that starts at clock `from`, before which the counter stands so.
    pub fn run(self, irq: VrcIrq, from: u32, clocks: u32) -> Run
        requires { from < clocks }
        ensures { RunOf self.entry.sweep self.entry.menu.now irq from clocks result }
    {
        let mut run = Run::of(self.seen(irq, from), irq, from);
        // The run counts its clocks itself.
        while run.to < clocks {
            let seen = self.seen(run.irq, run.to);
            if !same(seen.verdict, run.first.verdict) {
                return run;
            }
            run = run.with(seen);
        }
        run
    }
}
