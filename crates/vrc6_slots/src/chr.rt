// The banks of the eight CHR slots.
ghost use Rattle.std.specs.Prelude.{◌≡◌, ◌+◌, ◌*◌, ◌/◌, ◌%◌};
ghost use Rattle.vrc6_slots.specs.Chr.{chr_slots, even_bank, odd_bank, pair};

use crate::mode::pairs_aligned;

// Without its lowest bit, a register is the first bank of an aligned pair.
pub(crate) fn even_bank(v: u8) -> u8
    ensures { result ≡ even_bank v }
{
    v / 2 * 2
}

// The second bank of that pair.
pub(crate) fn odd_bank(v: u8) -> u8
    ensures { result ≡ odd_bank v }
{
    even_bank(v) + 1
}

// The two slots of one register. Aligned, they ignore the register's lowest bit.
fn pair(mode: u8, v: u8) -> [u8; 2]
    ensures { result ≡ pair mode v }
{
    if pairs_aligned(mode) {
        return [even_bank(v), odd_bank(v)];
    }
    [v, v]
}

// The banks of the eight 1 KiB slots, by the mode's lowest two bits.
#[tactic(auto, unfolding(crate::specs::Chr::chr_slots))]
pub fn chr_slots(mode: u8, chr: [u8; 8]) -> [u8; 8]
    ensures { result ≡ chr_slots mode chr }
{
    let [c0, c1, c2, c3, c4, c5, ..] = chr;
    match mode % 4 {
        0 => chr,
        1 => {
            let [a, b] = pair(mode, c0);
            let [c, d] = pair(mode, c1);
            let [e, f] = pair(mode, c2);
            let [g, h] = pair(mode, c3);
            [a, b, c, d, e, f, g, h]
        }
        _ => {
            let [e, f] = pair(mode, c4);
            let [g, h] = pair(mode, c5);
            [c0, c1, c2, c3, e, f, g, h]
        }
    }
}
