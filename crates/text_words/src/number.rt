// Numbers: a word's hexadecimal or decimal digits.
ghost use Rattle.std.specs.Prelude.{◌≡◌, ◌≤◌, IfOk};
ghost use Rattle.text_words.specs.Numbers.{below, digit_of, number_of};

// Why a word is no number.
#[derive(Clone, Copy, PartialEq, Eq, Debug)]
pub enum NumberError {
    NoNumber,
    TooLarge,
}

// What a digit of a base stands for.
fn digit(byte: u8, base: u64) -> Option<u64>
    ensures { result ≡ below base (digit_of byte) }
{
    char::from(byte)
        .to_digit(16)
        .map(u64::from)
        .filter(|d| *d < base)
}

// The number that the digits of a word make in a base. Above 16 there are no more digits than at 16, and at 0 there are none.
pub fn in_base(word: &[u8], base: u64, limit: u32) -> Result<u32, NumberError>
    ensures value { result ≡ number_of base limit word.now }
    ensures limit { IfOk result (λ n. n ≤ limit) }
{
    if word.is_empty() {
        return Err(NumberError::NoNumber);
    }
    let mut value: u64 = 0;
    for byte in word {
        let Some(d) = digit(*byte, base) else {
            return Err(NumberError::NoNumber);
        };
        value = value.saturating_mul(base).saturating_add(d);
    }
    if value <= u64::from(limit) {
        Ok(value as u32)
    } else {
        Err(NumberError::TooLarge)
    }
}
