// The whole state of a board as five lines, and the sixteen values of the Rust's `registers`.
use audio_pulse::Pulse;
use audio_saw::Saw;
use base_floats::pattern::bits_of;
use irq::VrcIrq;
use memory_pages::Page;
use std::fmt;
use std::fmt::{Display, Formatter};
use vrc6::Board;
use vrc6_banking::banking::{Banking, Revision};

// Entries, each behind a blank. These three differ in their formats, which are literals.
#[derive(Clone, Copy)]
struct Entries<'a>(&'a [Page]);

impl Display for Entries<'_> {
    fn fmt<W: fmt::Write>(&self, f: &mut Formatter<W>) -> fmt::Result {
        for page in self.0 {
            write!(f, " {:x}", u32::from(*page))?;
        }
        Ok(())
    }
}

// Bytes, each behind a blank.
#[derive(Clone, Copy)]
struct Hexadecimal<'a>(&'a [u8]);

impl Display for Hexadecimal<'_> {
    fn fmt<W: fmt::Write>(&self, f: &mut Formatter<W>) -> fmt::Result {
        for byte in self.0 {
            write!(f, " {:02x}", *byte)?;
        }
        Ok(())
    }
}

// Flags as 0 or 1, each behind a blank.
#[derive(Clone, Copy)]
struct Flags<'a>(&'a [bool]);

impl Display for Flags<'_> {
    fn fmt<W: fmt::Write>(&self, f: &mut Formatter<W>) -> fmt::Result {
        for flag in self.0 {
            write!(f, " {}", u8::from(*flag))?;
        }
        Ok(())
    }
}

#[derive(Clone, Copy)]
struct OfBanking(Banking);

impl Display for OfBanking {
    fn fmt<W: fmt::Write>(&self, f: &mut Formatter<W>) -> fmt::Result {
        let banking = self.0;
        let revision = if banking.revision_b {
            Revision::B
        } else {
            Revision::A
        };
        let [prg16, prg8] = banking.prg_banks;
        write!(
            f,
            "DB {revision} {:02x} {prg16:x} {prg8:x}",
            banking.banking_mode
        )?;
        write!(f, "{} {}", Hexadecimal(&banking.chr), banking.mirroring)?;
        write!(f, "{}\n", Hexadecimal(&banking.nt_banks))
    }
}

#[derive(Clone, Copy)]
struct OfIrq(VrcIrq);

impl Display for OfIrq {
    fn fmt<W: fmt::Write>(&self, f: &mut Formatter<W>) -> fmt::Result {
        let irq = self.0;
        let flags = [
            irq.irq_pending,
            irq.enabled,
            irq.enabled_after_ack,
            irq.cycle_mode,
        ];
        write!(
            f,
            "DI {} {} {}",
            irq.reload, irq.counter, irq.prescalar_counter
        )?;
        write!(f, "{}\n", Flags(&flags))
    }
}

#[derive(Clone, Copy)]
struct OfPulse(Pulse);

impl Display for OfPulse {
    fn fmt<W: fmt::Write>(&self, f: &mut Formatter<W>) -> fmt::Result {
        let pulse = self.0;
        write!(
            f,
            " / {} {} {}",
            u8::from(pulse.enabled),
            pulse.volume,
            pulse.duty_cycle
        )?;
        write!(
            f,
            " {} {} {}",
            u8::from(pulse.ignore_duty),
            pulse.frequency,
            pulse.timer
        )?;
        write!(f, " {} {}", pulse.step, pulse.freq_shift)
    }
}

#[derive(Clone, Copy)]
struct OfSaw(Saw);

impl Display for OfSaw {
    fn fmt<W: fmt::Write>(&self, f: &mut Formatter<W>) -> fmt::Result {
        let saw = self.0;
        write!(
            f,
            " / {} {} {}",
            u8::from(saw.enabled),
            saw.accum,
            saw.accum_rate
        )?;
        write!(
            f,
            " {} {} {} {}",
            saw.frequency, saw.timer, saw.step, saw.freq_shift
        )
    }
}

#[derive(Clone, Copy)]
pub struct Dump<'a>(pub &'a Board);

impl Display for Dump<'_> {
    fn fmt<W: fmt::Write>(&self, f: &mut Formatter<W>) -> fmt::Result {
        let board = self.0;
        let audio = &board.audio;
        write!(f, "DP{}\n", Entries(&board.prg_pages))?;
        write!(f, "DC{}\n", Entries(&board.chr_pages))?;
        write!(f, "{}{}", OfBanking(board.banking), OfIrq(board.irq))?;
        write!(f, "DA{}{}", OfPulse(audio.pulse1), OfPulse(audio.pulse2))?;
        write!(f, "{} / {}", OfSaw(audio.saw), u8::from(audio.halt))?;
        write!(f, " {:08x}\n", bits_of(audio.out))
    }
}

// In the order of `registers`: mode, PRG numbers, CHR bytes, reload, counter, enabled, pending, cycle mode.
#[derive(Clone, Copy)]
pub struct Registers<'a>(pub &'a Board);

impl Display for Registers<'_> {
    fn fmt<W: fmt::Write>(&self, f: &mut Formatter<W>) -> fmt::Result {
        let banking = &self.0.banking;
        let irq = &self.0.irq;
        let [prg16, prg8] = banking.prg_banks;
        write!(f, "G {} {prg16} {prg8}", banking.banking_mode)?;
        for byte in &banking.chr {
            write!(f, " {}", *byte)?;
        }
        write!(f, " {} {}", irq.reload, irq.counter)?;
        write!(
            f,
            "{}\n",
            Flags(&[irq.enabled, irq.irq_pending, irq.cycle_mode])
        )
    }
}
