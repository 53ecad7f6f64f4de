// Small hexadecimal digits.
ghost use Rattle.std.specs.Prelude.{◌≡◌, ◌≤◌, ◌<◌, length};
ghost use Rattle.text.specs.Hex.{hex_digit, hex_digits, digit_value, hex_number};

use std::array;

#[tactic(auto, unfolding(crate::specs::Hex::hex_digit))]
fn digit(d: u32) -> u8
    requires { d < 16 }
    ensures { result ≡ hex_digit d }
{
    if d < 10 {
        return b'0' + d as u8;
    }
    b'a' + (d - 10) as u8
}

// The eight digits of a word.
pub fn digits(w: u32) -> [u8; 8]
    ensures { result ≡ hex_digits 8 w }
{
    array::from_fn(|i| digit((w >> (28 - 4 * i as u32)) % 16))
}

// The value of a digit; any other byte has none. `char::to_digit` also takes capital letters, which a sheet refuses.
#[tactic(auto, unfolding(crate::specs::Hex::digit_value))]
fn digit_value(b: u8) -> Option<u32>
    ensures { result ≡ digit_value b }
{
    match b {
        b'0'..=b'9' => Some((b - b'0') as u32),
        b'a'..=b'f' => Some((b - b'a') as u32 + 10),
        _ => None,
    }
}

// Up to eight digits, so that the number fits.
#[tactic(auto, using(crate::proofs::HexLaws::number_end, crate::proofs::HexLaws::number_stop))]
pub fn number(s: &[u8]) -> Option<u32>
    requires { length s.now ≤ 8 }
    ensures { result ≡ hex_number 0 s.now }
{
    let mut n: u32 = 0;
    for b in s {
        n = n * 16 + digit_value(*b)?;
    }
    Some(n)
}
