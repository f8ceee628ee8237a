// A pair `slot:bank` of the letters' cell: the picture slot of 1 KiB, 0 to 7, and the bank that it must show; and whether slots do.
ghost use Rattle.std.specs.Prelude.{◌≡◌, Some};
ghost use Rattle.scene_steps.specs.Letters.{pair_of, slot_right, slots_right};
ghost use Rattle.scene_steps.specs.Texts.{pair_error_text};

use scene_cells::marks::split_once;
use std::fmt;
use text_words::number::in_base;

#[derive(Clone, Copy, PartialEq, Eq)]
pub struct Pair {
    pub slot: u32,
    pub bank: u32,
}

// Why a word is no pair.
#[derive(Clone, Copy, PartialEq, Eq)]
pub enum PairError {
    NoPair,
    NoSlot,
    NoBank,
}

impl fmt::Display for PairError {
    ghost output = { λ error. Some (pair_error_text error) };

    fn fmt<W: fmt::Write>(&self, f: &mut fmt::Formatter<W>) -> fmt::Result {
        f.write_str(match self {
            PairError::NoPair => "is no pair slot:bank",
            PairError::NoSlot => "has no slot of 0 to 7",
            PairError::NoBank => "has no bank of 0 to 255",
        })
    }
}

// What a word says.
#[tactic(auto, unfolding(crate::specs::Letters::pair_of))]
pub fn pair_of(word: &[u8]) -> Result<Pair, PairError>
    ensures { result ≡ pair_of word.now }
{
    let (slot, bank) = split_once(word, b':').ok_or(PairError::NoPair)?;
    let slot = in_base(slot, 10, 7).map_err(|_| PairError::NoSlot)?;
    let bank = in_base(bank, 10, 255).map_err(|_| PairError::NoBank)?;
    Ok(Pair { slot, bank })
}

// Whether a slot shows the bank that was asked; where none was, it may show any.
pub fn slot_right(shown: Option<u32>, asked: Option<u32>) -> bool
    ensures { result ≡ slot_right shown asked }
{
    asked.is_none() || shown == asked
}

// Whether all slots do.
pub fn slots_right(shown: [Option<u32>; 8], asked: [Option<u32>; 8]) -> bool
    ensures { result ≡ slots_right shown asked }
{
    shown
        .iter()
        .zip(asked.iter())
        .all(|(shown, asked)| slot_right(*shown, *asked))
}
