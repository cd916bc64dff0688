// Numbers in decimal digits.
ghost use Rattle.std.specs.Prelude.{◌≡◌, ◌-◌, true, false, None, IfSome};
ghost use Rattle.command.specs.Decimal.{is_digit, number_in, written};

// The number of a digit, if the byte is one.
fn digit(byte: u8) -> Option<u8>
    ensures some { IfSome result (λ d. (is_digit byte ≡ true) × (d ≡ byte - 48)) }
    ensures none { result ≡ None → is_digit byte ≡ false }
{
    match byte {
        b'0'..=b'9' => Some(byte - b'0'),
        _ => None,
    }
}

// The number that the text writes in decimal digits, the highest first. There is none in an empty text, nor where any byte is no digit, nor where the
// number has more than 64 bits.
pub fn decimal(text: &[u8]) -> Option<u64>
    ensures { number_in result ≡ written text.now }
{
    if text.is_empty() {
        return None;
    }
    let mut value = 0u64;
    for byte in text {
        let digit = digit(*byte)?;
        value = value.checked_mul(10)?.checked_add(u64::from(digit))?;
    }
    Some(value)
}
