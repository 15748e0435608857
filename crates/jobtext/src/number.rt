// The numbers that words write.
ghost use Rattle.std.specs.Prelude.{◌≡◌, ◌≤◌, IfSome};
ghost use Rattle.jobtext.specs.Numbers.{end_of, number_up_to, step_of};

use bounds::LooseEnd;

/// The number that a word writes in decimal digits, if the word is such a number and not above `most`.
pub(crate) fn decimal(word: &[u8], most: u32) -> Option<u32>
    ensures value { result ≡ number_up_to most word.now }
    ensures bound { IfSome result (λ n. n ≤ most) }
{
    if word.is_empty() {
        return None;
    }
    // No `try_fold`: that ten times the value fits rests on the test of the turn before. The `parse` of std takes a sign as well.
    let mut value: u64 = 0;
    for digit in word {
        if !digit.is_ascii_digit() {
            return None;
        }
        value = value * 10 + u64::from(*digit - b'0');
        if value > u64::from(most) {
            return None;
        }
    }
    Some(value as u32)
}

/// The step, or the number of steps, that a word writes, if it fits a u16.
pub(crate) fn step(word: &[u8]) -> Option<u16>
    ensures { result ≡ step_of word.now }
{
    decimal(word, u16::MAX as u32).map(|number| number as u16)
}

/// The end of a bound that a word writes: absent for a lone minus sign, else a number that fits an i32.
pub(crate) fn end(word: &[u8]) -> Option<LooseEnd>
    ensures { result ≡ end_of word.now }
{
    let value = match word {
        [b'-'] => return Some(LooseEnd::Absent(0)),
        [b'-', digits @ ..] => -i64::from(decimal(digits, i32::MIN.unsigned_abs())?),
        _ => i64::from(decimal(word, i32::MAX as u32)?),
    };
    Some(LooseEnd::Present(value as i32))
}
