// The menu, played at every clock from the end of the writes to the interrupt, and reported by runs of clocks with one verdict.
ghost use Rattle.scene_sweep.specs.Swept.{SweptOf};

use crate::{Bar, Moment, Stretch};
use irq::VrcIrq;
use scene_moments::Mark;
use scene_sweep::bar::{mark, unmarked};
use scene_sweep::tally::tallied;
use scene_sweep::{MenuSweep, Tally};
use std::fmt;
use std::fmt::{Display, Formatter};
use text_output::{Output, put};

// The moments that are wrong, if some are, and the bar.
#[derive(Clone, Copy)]
pub struct Swept {
    pub tally: Option<Tally>,
    pub bar: [Mark; 64],
}

// Plays the menu at each clock, run by run. The counter goes on from run to run.
pub fn sweep_clocks(given: MenuSweep, start: VrcIrq, clocks: u32, out: &mut Output) -> Swept
    ensures { SweptOf given.entry.sweep given.entry.menu.now start clocks clocks result.tally result.bar }
{
    let mut bar = unmarked();
    let mut tally = None;
    let mut irq = start;
    let mut from: u32 = 0;
    // A turn goes on by as many clocks as its run has.
    while from < clocks {
        let run = given.run(irq, from, clocks);
        tally = tallied(tally, from, run);
        let told = run.first.verdict.mark();
        mark(&mut bar, from, run.to, clocks, told);
        let stretch = Stretch {
            from,
            last: run.to - 1,
            run,
            screen: given.sweep.window.screen,
            alone: clocks,
        };
        put!(out; "{stretch}");
        irq = run.irq;
        from = run.to;
    }
    Swept { tally, bar }
}

// What a sweep found, below its runs: the first wrong moment and the worst, and the bar.
impl Display for Swept {
    fn fmt<W: fmt::Write>(&self, f: &mut Formatter<W>) -> fmt::Result {
        if let Some(tally) = self.tally {
            writeln!(f, "  first wrong at clock {}", Moment(tally.first))?;
            writeln!(f, "  worst at clock {}", Moment(tally.worst))?;
        }
        writeln!(f, "{}", Bar(self.bar))
    }
}
