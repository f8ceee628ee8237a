// Whole numbers as f32s: the sum of the three channels, the test that an f32 is such a sum, and when two are one.
#![tactic(auto)]

pub mod pattern;

ghost use Rattle.std.specs.Prelude.{◌≡◌, true};
ghost use Rattle.base_floats.specs.Wholes.{is_sum, mixed, sum_capped};

// Three levels by two f32 additions, in this order; exact for small whole numbers.
pub fn mixed(a: f32, b: f32, c: f32) -> f32
    ensures { result ≡ mixed a b c }
{
    a + b + c
}

// x where it is below 62, otherwise 62, which is no NaN: a NaN has no bits to compare.
fn capped(x: f32) -> f32
    ensures { result ≡ sum_capped x }
{
    if x < 62.0 { x } else { 62.0 }
}

// Whether x is one of the f32s 0, 1, .. 61. A NaN, an infinity, a fraction, a negative number and
// -0.0 are none of them.
pub fn is_sum(x: f32) -> bool
    ensures { result ≡ is_sum x }
{
    // A whole number below 64 stands in the low six bits of its sum with 2^23. So n is the only
    // one that y can be, and y is n where the bits are equal.
    let y = capped(x);
    let n = f32::to_bits(y + 8_388_608.0) % 64;
    let whole = n as f32;
    (n <= 61) & (f32::to_bits(whole) == f32::to_bits(y))
}

// Yes only where x and y are one f32, with the same bits; no NaN is. Not `==`, for which -0.0 is 0.0.
pub fn same(x: f32, y: f32) -> bool
    ensures { result ≡ true → x ≡ y }
{
    if x <= y {
        return f32::to_bits(x) == f32::to_bits(y);
    }
    false
}
