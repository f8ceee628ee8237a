// The words of a text, runs of bytes that are no blanks, and the numbers that they write.
#![tactic(auto)]

pub mod names;
pub mod number;

ghost use Rattle.std.specs.Prelude.{◌≡◌, ◌≤◌, ℕ, Bool, true, drop, length, MatchOption, option_map};
ghost use Rattle.text_words.specs.Found.{Found};
ghost use Rattle.text_words.specs.Words.{from_first, from_taken, is_blank, is_empty, only_word};

// A word of a text, and the text behind it.
#[derive(Clone, Copy)]
pub struct Word<'a> {
    pub bytes: &'a [u8],
    pub rest: &'a [u8],
}

// Space, tab and the line ends.
pub fn is_blank(byte: u8) -> bool
    ensures { result ≡ is_blank byte }
{
    (byte == b' ') | ((9 <= byte) & (byte <= 13))
}

// How many bytes of a text stand before the first that a test takes; all where it takes none.
pub fn length_before<F: Fn(u8) -> bool>(text: &[u8], takes: F) -> usize
    ghost test: { ℕ → Bool }
    requires callable { F.IsAlwaysCallable takes }
    requires tests { (b : ℕ) (r : Bool) → F.post takes b r → r ≡ test b }
    ensures bound { result ≤ length text.now }
    ensures cut { drop result text.now ≡ from_taken test text.now }
{
    text.iter().position(|b| takes(*b)).unwrap_or(text.len())
}

// How many bytes of a text stand before its first blank, or before its first byte that is none.
fn before_first(text: &[u8], blank: bool) -> usize
    ensures bound { result ≤ length text.now }
    ensures cut { drop result text.now ≡ from_first blank text.now }
{
    length_before(text, |b| is_blank(b) == blank)
}

// A text from its first blank on, or from its first byte on that is none.
pub fn from_first(text: &[u8], blank: bool) -> &[u8]
    ensures { result.now ≡ from_first blank text.now }
{
    &text[before_first(text, blank)..]
}

// The first word of a text.
pub fn next_word(text: &[u8]) -> Option<Word<'_>>
    ensures { MatchOption result (is_empty text.now ≡ true) (Found text.now) }
{
    let text = from_first(text, false);
    let (bytes, rest) = text.split_at(before_first(text, true));
    if bytes.is_empty() {
        None
    } else {
        Some(Word { bytes, rest })
    }
}

// Whether a text has no word.
pub fn is_empty(text: &[u8]) -> bool
    ensures { result ≡ is_empty text.now }
{
    next_word(text).is_none()
}

// The only word of a text; none where it has none or several.
pub fn only_word(text: &[u8]) -> Option<&[u8]>
    ensures { option_map (λ w. w.now) result ≡ only_word text.now }
{
    let word = next_word(text)?;
    if is_empty(word.rest) {
        Some(word.bytes)
    } else {
        None
    }
}
