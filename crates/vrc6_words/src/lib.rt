// The words by which sheets and rows of headers name a mirroring and a revision. A capital counts as its small letter.
#![tactic(auto)]

ghost use Rattle.std.specs.Prelude.{◌≡◌};
ghost use Rattle.vrc6_words.specs.Named.{mirroring_of, revision_of};

use text_words::names::named;
use vrc6_banking::banking::{Mirroring, Revision};

const MIRRORINGS: [(&[u8], Mirroring); 5] = [
    (b"V", Mirroring::Vertical),
    (b"H", Mirroring::Horizontal),
    (b"A", Mirroring::SingleScreenA),
    (b"B", Mirroring::SingleScreenB),
    (b"4", Mirroring::FourScreen),
];

const REVISIONS: [(&[u8], Revision); 2] = [(b"A", Revision::A), (b"B", Revision::B)];

// The mirroring that a word names.
pub fn mirroring_of(word: &[u8]) -> Option<Mirroring>
    ensures { result ≡ mirroring_of word.now }
{
    named(&MIRRORINGS, word)
}

// The revision that a word names.
pub fn revision_of(word: &[u8]) -> Option<Revision>
    ensures { result ≡ revision_of word.now }
{
    named(&REVISIONS, word)
}
