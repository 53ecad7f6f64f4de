// Decimal numbers, right in columns.
ghost use Rattle.std.specs.Prelude.{◌≡◌};
ghost use Rattle.text.specs.Decimal.{decimal_in};

// A number below 10^14 right in 14 columns: its digits from the last to the first, and blanks before them.
pub fn columns(n: u64) -> [u8; 14]
    ensures { result ≡ decimal_in 14 n }
{
    let mut text = [b' '; 14];
    let mut rest = n;
    for i in (0..14).rev() {
        text[i] = b'0' + (rest % 10) as u8;
        rest /= 10;
        if rest == 0 {
            break;
        }
    }
    text
}
