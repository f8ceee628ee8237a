// The calls that store a byte: CPU write, which then reaches a register, and picture write.
ghost use Rattle.std.specs.Prelude.{◌≡◌, true, Some};
ghost use Rattle.base_shared.specs.Numbers.{answer_number};
ghost use Rattle.memory_layout.specs.Layout.{within_limits};
ghost use Rattle.memory_tables.specs.Paging.{picture};
ghost use Rattle.registers.specs.declared.Register.TheVariants.{OfBank};
ghost use Rattle.vrc6.specs.Boards.{held_by};
ghost use Rattle.vrc6.specs.Calls.{cpu_write, cpu_write_left, picture_write, picture_write_left, register_written, written_at};
ghost use Rattle.vrc6.specs.Checks.{cpu_write_refusal, memory_refusal, register_checks};

use crate::board::{Board, Changed};
use base_shared::Refusal;
use memory_access::store;
use registers::{BankRegister, Register, decode};
use vrc6_tables::{chr_pages, prg_pages};

impl Board {
    // A bank register takes a byte, and every entry is rebuilt from the banking values, in place, so that no table is copied twice. Above the
    // limits of a layout the board stays; no caller comes here so. Out of line, so that other writes make no room for tables.
    #[inline(never)]
    fn write_bank(&mut self, register: BankRegister, val: u8)
        ensures { within_limits self.old.layout ≡ true → self.new ≡ register_written (Some (OfBank register)) val self.old }
    {
        if let Some(limited) = self.layout.limited() {
            let banking = self.banking.write_register(register, val);
            self.prg_pages = prg_pages(limited, banking);
            self.chr_pages = chr_pages(limited, banking);
            self.banking = banking;
        }
    }

    // The register that a CPU write reaches takes its byte.
    pub fn write_register(&mut self, addr: u16, val: u8)
        ensures { within_limits self.old.layout ≡ true → self.new ≡ written_at self.old addr val }
    {
        match decode(self.banking.revision_b, addr) {
            Some(Register::OfBank(register)) => self.write_bank(register, val),
            Some(Register::OfAudio(register)) => {
                self.audio = self.audio.write_register(register, val);
            }
            Some(Register::OfIrq(register)) => self.irq = self.irq.write_register(register, val),
            None => {}
        }
    }

    // Whether what a CPU write checks beside its entry is in range: from $8000 up all banking, interrupt and sound values.
    fn values_in_range(&self, addr: u16) -> bool
        ensures { result ≡ register_checks self.now addr }
    {
        (addr < 0x8000) || (self.banking.in_range() & self.engine().in_range())
    }

    // With the board lent: the byte through the entries as they were, then the register. Refused, board and buffers stay.
    pub fn lent_cpu_write(
        &mut self,
        fixed: &[u8],
        changing: &mut [u8],
        addr: u16,
        val: u8,
    ) -> Result<(), Refusal>
        ensures number { answer_number result ≡ cpu_write_refusal (held_by self.old fixed.now changing.old) addr }
        ensures board_after { self.new ≡ (cpu_write_left (held_by self.old fixed.now changing.old) addr val).board }
        ensures changing_after { changing.new ≡ (cpu_write_left (held_by self.old fixed.now changing.old) addr val).changing }
    {
        let access = self.cpu_access(addr);
        access.check(fixed.len(), changing.len())?;
        if !self.values_in_range(addr) {
            return Err(Refusal::Range);
        }
        store(access.page, fixed.len(), changing, addr, val);
        self.write_register(addr, val);
        Ok(())
    }

    // The calls by value are two lines each, as the reads are.
    pub fn cpu_write(mut self, fixed: &[u8], changing: &mut [u8], addr: u16, val: u8) -> Changed
        ensures { (result ≡ cpu_write (held_by self fixed.now changing.old) addr val)
            × (changing.new ≡ (cpu_write_left (held_by self fixed.now changing.old) addr val).changing) }
    {
        let answer = self.lent_cpu_write(fixed, changing, addr, val);
        self.changed(answer)
    }

    // With the board lent: a byte, and no register.
    pub fn lent_picture_write(
        &self,
        fixed: &[u8],
        changing: &mut [u8],
        addr: u16,
        val: u8,
    ) -> Result<(), Refusal>
        ensures number { answer_number result ≡ memory_refusal picture (held_by self.now fixed.now changing.old) addr true }
        ensures changing_after { changing.new ≡ (picture_write_left (held_by self.now fixed.now changing.old) addr val).changing }
    {
        self.picture_access(addr).write(fixed, changing, addr, val)
    }

    pub fn picture_write(self, fixed: &[u8], changing: &mut [u8], addr: u16, val: u8) -> Changed
        ensures { (result ≡ picture_write (held_by self fixed.now changing.old) addr val)
            × (changing.new ≡ (picture_write_left (held_by self fixed.now changing.old) addr val).changing) }
    {
        let answer = self.lent_picture_write(fixed, changing, addr, val);
        self.changed(answer)
    }
}
