// The moments at which the interrupt comes while the menu waits with wrong letters.
ghost use Rattle.std.specs.Prelude.{◌≡◌};
ghost use Rattle.scene_sweep.specs.Letters.{MetOf, is_marked, met_with};

use crate::runs::MenuSweep;
use irq::VrcIrq;
use scene_moments::moment::came_in;

// How many there are, the first clock, and the step of the menu in which the interrupt comes there.
#[derive(Clone, Copy, PartialEq, Eq)]
pub struct Met {
    pub count: u32,
    pub first: u32,
    pub step: usize,
}

// Whether a step is marked; there are no marks behind those of the menu's steps.
fn is_marked(marks: &[bool], step: usize) -> bool
    ensures { result ≡ is_marked marks.now step }
{
    marks.get(step).copied().unwrap_or(false)
}

// With clock k, at which the interrupt comes in a step, if it comes in one.
fn met_with(met: Option<Met>, marks: &[bool], k: u32, step: Option<usize>) -> Option<Met>
    ensures { result ≡ met_with met marks.now k step }
{
    match step {
        Some(i) if is_marked(marks, i) => Some(match met {
            Some(met) => Met {
                count: met.count.wrapping_add(1),
                ..met
            },
            None => Met {
                count: 1,
                first: k,
                step: i,
            },
        }),
        _ => met,
    }
}

impl MenuSweep<'_> {
    // Counts the clocks of a sweep at which the interrupt comes in a step of the menu that is marked, since it begins with wrong
    // letters. Marks lie beside the steps, as where the interrupt comes is asked of the steps alone.
    pub fn letters_met(self, irq: VrcIrq, clocks: u32, marks: &[bool]) -> Option<Met>
        ensures { MetOf self.entry.sweep self.entry.menu.now marks.now irq clocks result }
    {
        let mut met = None;
        let mut q = irq;
        for k in 0..clocks {
            let step = came_in(q, k, self.sweep.revision_b, self.menu);
            met = met_with(met, marks, k, step);
            q = q.clock().irq;
        }
        met
    }
}
