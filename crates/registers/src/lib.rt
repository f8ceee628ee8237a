// The registers of the board, and which of them a CPU write reaches (tetanes-core's m024_m026_vrc6.rs, `write_register`).
#![tactic(auto)]

ghost use Rattle.std.specs.Prelude.{◌≡◌, ◌+◌, ◌<◌, ◌≤◌};
ghost use Rattle.registers.specs.declared.BankRegister.TheVariants.{Chr};
ghost use Rattle.registers.specs.declared.Register.TheVariants.{OfBank};
ghost use Rattle.registers.specs.Decode.{channel_register, decode, lines};

// The eleven bank registers.
#[derive(Clone, Copy, PartialEq, Eq)]
pub enum BankRegister {
    // $8000..3, the 16 KiB bank at $8000.
    Prg16,
    // $C000..3, the 8 KiB bank at $C000.
    Prg8,
    // $B003, the banking mode.
    Mode,
    // $D000..3 are CHR 0 to 3, $E000..3 are CHR 4 to 7.
    Chr(u8),
}

// The three registers that both pulses and the saw have.
#[derive(Clone, Copy, PartialEq, Eq)]
pub enum ChannelRegister {
    // $9000 and $A000, volume and duty; $B000, the saw's rate.
    Volume,
    // $9001, $A001, $B001.
    FrequencyLow,
    // $9002, $A002, $B002.
    FrequencyHigh,
}

// The ten sound registers.
#[derive(Clone, Copy, PartialEq, Eq)]
pub enum AudioRegister {
    // $9000..2.
    Pulse1(ChannelRegister),
    // $A000..2.
    Pulse2(ChannelRegister),
    // $B000..2.
    OfSaw(ChannelRegister),
    // $9003, halt and shift.
    Halt,
}

// The three interrupt registers.
#[derive(Clone, Copy, PartialEq, Eq)]
pub enum IrqRegister {
    // $F000.
    Reload,
    // $F001.
    Control,
    // $F002.
    Acknowledge,
}

// A register of the board, by the part that has it.
#[derive(Clone, Copy, PartialEq, Eq)]
pub enum Register {
    OfBank(BankRegister),
    OfAudio(AudioRegister),
    OfIrq(IrqRegister),
}

// Address lines 0 and 1, which revision B exchanges. It is a flag, as a board holds it for C.
fn lines(revision_b: bool, addr: u16) -> u16
    ensures { (result ≡ lines revision_b addr) × (result < 4) }
{
    if revision_b {
        addr % 2 * 2 + addr / 2 % 2
    } else {
        addr % 4
    }
}

// The three registers that pulses and the saw have alike. No TryFrom: line 3 has another register in each of the three rows.
fn channel_register(line: u16) -> ChannelRegister
    ensures { result ≡ channel_register line }
{
    match line {
        0 => ChannelRegister::Volume,
        1 => ChannelRegister::FrequencyLow,
        _ => ChannelRegister::FrequencyHigh,
    }
}

// CHR 0 to 3 and CHR 4 to 7, four to a row.
fn chr_register(first: u8, line: u16) -> Register
    requires { (first ≤ 4) × (line < 4) }
    ensures { result ≡ OfBank (Chr (first + line)) }
{
    Register::OfBank(BankRegister::Chr(first + line as u8))
}

// The register that a write reaches: none below $8000, at $A003 and at $F003. Only lines 0, 1 and 12 to 15 are decoded, so each register
// repeats through its 4 KiB.
#[tactic(auto, unfolding(crate::specs::Decode::decode))]
pub fn decode(revision_b: bool, addr: u16) -> Option<Register>
    ensures { result ≡ decode revision_b addr }
{
    match (addr / 0x1000, lines(revision_b, addr)) {
        (0x8, _) => Some(Register::OfBank(BankRegister::Prg16)),
        (0x9, 3) => Some(Register::OfAudio(AudioRegister::Halt)),
        (0x9, line) => Some(Register::OfAudio(AudioRegister::Pulse1(channel_register(line)))),
        (0xA, 3) => None,
        (0xA, line) => Some(Register::OfAudio(AudioRegister::Pulse2(channel_register(line)))),
        (0xB, 3) => Some(Register::OfBank(BankRegister::Mode)),
        (0xB, line) => Some(Register::OfAudio(AudioRegister::OfSaw(channel_register(line)))),
        (0xC, _) => Some(Register::OfBank(BankRegister::Prg8)),
        (0xD, line) => Some(chr_register(0, line)),
        (0xE, line) => Some(chr_register(4, line)),
        (0xF, 0) => Some(Register::OfIrq(IrqRegister::Reload)),
        (0xF, 1) => Some(Register::OfIrq(IrqRegister::Control)),
        (0xF, 2) => Some(Register::OfIrq(IrqRegister::Acknowledge)),
        _ => None,
    }
}
