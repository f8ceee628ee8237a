// Names: which of the words of a text a word is. A capital counts as its small letter.
ghost use Rattle.std.specs.Prelude.{◌≡◌, ◌≤◌, length, map, IfSome, ◌<◌, option_map};
ghost use Rattle.std.specs.Iterator.{YieldsFirstRef, item_count};
ghost use Rattle.text_words.specs.Names.{byte_of_nth, named, nth_word, place_in, same_name, words_of};

use crate::next_word;

// The words of a text, one after the other.
#[derive(Clone, Copy)]
pub struct Words<'a> {
    pub text: &'a [u8],
}

impl<'a> Iterator for Words<'a> {
    type Item = &'a [u8];

    ghost next_gives = { YieldsFirstRef (λ s. words_of s.text.now) };

    ghost remaining = { item_count (λ s. words_of s.text.now) };

    #[tactic(auto, using(crate::proofs::Words::found, crate::proofs::Words::none_left))]
    fn next(&mut self) -> Option<&'a [u8]> {
        let word = next_word(self.text)?;
        self.text = word.rest;
        Some(word.bytes)
    }
}

// Whether two names are equal.
pub fn same_name(a: &[u8], b: &[u8]) -> bool
    ensures { result ≡ same_name a.now b.now }
{
    a.eq_ignore_ascii_case(b)
}

// The place of a name among the words of a text, from 0; none where it is none of them.
pub fn place_in(names: &[u8], name: &[u8]) -> Option<usize>
    ensures value { result ≡ place_in names.now name.now }
    ensures upper_bound { IfSome result (λ place. place < length names.now) }
{
    Words { text: names }.position(|word| same_name(name, word))
}

// What a name stands for; nothing where it is none of the table.
pub fn named<T: Copy>(table: &[(&[u8], T)], word: &[u8]) -> Option<T>
    ensures { result ≡ named (map (λ entry. (entry.0.now, entry.1)) table.now) word.now }
{
    table
        .iter()
        .find(|(name, _)| same_name(name, word))
        .map(|(_, value)| *value)
}

// The n-th word of a text, from 0; none where there are fewer.
pub fn nth_word(text: &[u8], n: usize) -> Option<&[u8]>
    ensures { option_map (λ w. w.now) result ≡ nth_word n text.now }
{
    Words { text }.nth(n)
}

// A byte of the n-th word, from 0; none behind its end.
pub fn byte_of_nth(text: &[u8], n: usize, i: usize) -> Option<u8>
    ensures { result ≡ byte_of_nth n i text.now }
{
    nth_word(text, n)?.get(i).copied()
}
