// The hexadecimal numbers of a step, which may have `$` or `0x` before their digits.
ghost use Rattle.std.specs.Prelude.{◌≡◌, ◌≤◌, IfOk, drop};
ghost use Rattle.scene_steps.specs.Steps.{hex_of, prefix_length};

use text_words::number::{NumberError, in_base};

// The digits behind the prefix.
fn digits_of(word: &[u8]) -> &[u8]
    ensures { result.now ≡ drop (prefix_length word.now) word.now }
{
    match word {
        [b'$', digits @ ..] => digits,
        [b'0', b'x' | b'X', digits @ ..] => digits,
        _ => word,
    }
}

// The number of the digits, with or without a prefix.
pub(crate) fn in_hex(word: &[u8], limit: u32) -> Result<u32, NumberError>
    ensures value { result ≡ hex_of limit word.now }
    ensures limit { IfOk result (λ n. n ≤ limit) }
{
    in_base(digits_of(word), 16, limit)
}
