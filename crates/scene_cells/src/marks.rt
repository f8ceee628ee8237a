// Where a byte stands first in a text.
ghost use Rattle.std.specs.Prelude.{◌≡◌, eqb, length, position, true, MatchOption};
ghost use Rattle.scene_cells.specs.Marks.{SplitAt, from_mark};

// The place of the first such byte.
pub fn place_of(text: &[u8], mark: u8) -> Option<usize>
    ensures { result ≡ position (λ b. eqb b mark) text.now }
{
    text.iter().position(|b| *b == mark)
}

// What stands before the first such byte, and what behind it.
#[tactic(auto, using(crate::proofs::Splits::missing))]
pub fn split_once(text: &[u8], mark: u8) -> Option<(&[u8], &[u8])>
    ensures { MatchOption result (eqb (length (from_mark mark text.now)) 0 ≡ true) (λ p. SplitAt mark text.now p.0.now p.1.now) }
{
    let place = place_of(text, mark)?;
    Some((&text[..place], &text[place + 1..]))
}
