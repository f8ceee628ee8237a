// The cell that holds one of two words.
ghost use Rattle.std.specs.Prelude.{◌≡◌};
ghost use Rattle.scene_cells.specs.Choices.{interrupts_of};

use text_words::names::named;

// How the menu's handler leaves interrupts.
#[derive(Clone, Copy, PartialEq, Eq, Debug)]
pub enum Interrupts {
    Masked,
    Open,
}

const CHOICES: [(&[u8], Interrupts); 2] = [
    (b"masked", Interrupts::Masked),
    (b"open", Interrupts::Open),
];

// The choice that a word names.
pub fn interrupts_of(word: &[u8]) -> Option<Interrupts>
    ensures { result ≡ interrupts_of word.now }
{
    named(&CHOICES, word)
}
