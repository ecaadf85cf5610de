ghost use Rattle.std.specs.Prelude.{◌≡◌};
ghost use Rattle.std.specs.Str.Parse.{digits_value};
ghost use Rattle.std.specs.List.{AllByRecursion};
ghost use Rattle.grammar.specs.Tokens.{Digit, leading_zero};
ghost use Rattle.lexis.specs.Values.{fitting};

// Whether there is a zero before another digit.
pub(crate) fn has_leading_zero(digits: &[u8]) -> bool
    ensures { result ≡ leading_zero digits.now }
{
    digits.len() > 1 && digits[0] == b'0'
}

// The number that the digits write, where it fits 32 bits. Reading these known digits by `words::number` would be no
// plainer: it looks for each digit again, refuses an empty word, and counts to 64 bits.
pub(crate) fn value_of(digits: &[u8]) -> Option<u32>
    requires { AllByRecursion Digit digits.now }
    ensures { result ≡ fitting (digits_value 10 digits.now) }
{
    let mut sum: u32 = 0;
    for digit in digits {
        sum = sum.checked_mul(10)?.checked_add(u32::from(*digit - b'0'))?;
    }
    Some(sum)
}
