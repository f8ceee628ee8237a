// The banks that slots show, and those that were asked.
use crate::totals::Count;
use scene_steps::letters::{slot_right, slots_right};
use scene_sweep::Met;
use std::fmt;
use text_output::{Output, put};

// A bank for each of the eight slots: the one that it shows, if it is one of CHR, or the one that it must show, if one is asked.
pub type Banks = [Option<u32>; 8];

pub(crate) fn are_asked(asked: Banks) -> bool {
    asked.iter().any(|bank| bank.is_some())
}

// When letters are looked at: at the end of the writes, behind the menu, or where the interrupt comes inside it.
#[derive(Clone, Copy)]
pub enum When {
    AtEnd,
    AfterMenu,
    Inside(Met),
}

impl fmt::Display for When {
    fn fmt<W: fmt::Write>(&self, f: &mut fmt::Formatter<W>) -> fmt::Result {
        f.write_str(match self {
            When::AtEnd => "letters",
            When::AfterMenu => "letters after the menu",
            When::Inside(_) => "letters inside the menu",
        })
    }
}

// A slot that shows another bank than the one asked, both in decimal and in hexadecimal.
#[derive(Clone, Copy)]
pub struct WrongSlot {
    pub slot: usize,
    pub shown: Option<u32>,
    pub asked: u32,
}

impl fmt::Display for WrongSlot {
    fn fmt<W: fmt::Write>(&self, f: &mut fmt::Formatter<W>) -> fmt::Result {
        let slot = self.slot;
        let asked = self.asked;
        match self.shown {
            Some(bank) => write!(f, "slot {slot} shows bank {bank} (${bank:02X})")?,
            None => write!(f, "slot {slot} shows no bank of chr")?,
        }
        write!(f, ", not {asked} (${asked:02X})")
    }
}

impl When {
    // A line for each slot that is wrong. Inside the menu it says at how many moments that is so, and the first of them.
    pub(crate) fn tell_wrong(self, out: &mut Output, shown: Banks, asked: Banks) {
        for (slot, (shown, asked)) in shown.iter().zip(asked.iter()).enumerate() {
            let Some(bank) = *asked else { continue };
            if slot_right(*shown, *asked) {
                continue;
            }
            let wrong = WrongSlot {
                slot,
                shown: *shown,
                asked: bank,
            };
            put!(out; "  {self}: {wrong}");
            if let When::Inside(met) = self {
                put!(out; ", on {}, first at clock {}", Count::of_moments(u64::from(met.count)), met.first);
            }
            put!(out; "\n");
        }
    }

    // What slots show, if any letters are asked.
    pub(crate) fn tell(self, out: &mut Output, shown: Banks, asked: Banks) {
        if !are_asked(asked) {
            return;
        }
        if slots_right(shown, asked) {
            put!(out; "  {self}: ok\n");
        } else {
            self.tell_wrong(out, shown, asked);
        }
    }
}
