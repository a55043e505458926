// The values of a line: numbers in base ten within a range, numbers below zero, eight hexadecimal digits.
ghost use Rattle.std.specs.Prelude.{◌≡◌, ◌<◌, ◌-◌, ◌^◌, min, IfOk};
ghost use Rattle.texts.specs.Numbers.{digits, proper, is_number, within, value_of, read_number, read_digit, read_byte, read_hex, read_below, Within};

use super::fault::Fault;

// The numbers from `low` to `high`, both among them.
#[derive(Clone, Copy)]
pub struct Range {
    pub low: u32,
    pub high: u32,
}

impl Range {
    // Whether a number lies within the range.
    pub fn contains(self, n: u64) -> bool
        ensures { result ≡ within self n }
    {
        (u64::from(self.low)..=u64::from(self.high)).contains(&n)
    }
}

// Whether there is a digit, and no zero in front of others.
fn is_proper(s: &[u8]) -> bool
    ensures { result ≡ proper s.now }
{
    match s {
        [] => false,
        [_] => true,
        [first, ..] => *first != b'0',
    }
}

// Whether each byte is a digit.
fn all_digits(s: &[u8]) -> bool
    ensures { result ≡ digits s.now }
{
    s.iter().all(|b| b.is_ascii_digit())
}

// Whether `s` is a number.
fn is_number(s: &[u8]) -> bool
    ensures { result ≡ is_number s.now }
{
    all_digits(s) && is_proper(s)
}

// The number that digits write; past 64 bits the greatest, which is too large for any range.
fn value_of(digits: &[u8]) -> u64
    ensures { result ≡ min (value_of 0 digits.now) (2 ^ 64 - 1) }
{
    digits.iter().fold(0, |n: u64, digit| {
        n.saturating_mul(10)
            .saturating_add(u64::from(digit.saturating_sub(b'0')))
    })
}

// A number within its range.
pub(crate) fn number(s: &[u8], range: Range) -> Result<u32, Fault>
    ensures value { result ≡ read_number range s.now }
    ensures inside { IfOk result (Within range) }
{
    if !is_number(s) {
        return Err(Fault::WrongForm);
    }
    let n = value_of(s);
    if !range.contains(n) {
        return Err(Fault::OutOfRange);
    }
    Ok(n as u32)
}

fn hex_digit(b: u8) -> Result<u8, Fault>
    ensures value { result ≡ read_digit b }
    ensures small { IfOk result (λ d. d < 16) }
{
    match b {
        b'0'..=b'9' => Ok(b - b'0'),
        b'A'..=b'F' => Ok(b - b'A' + 10),
        _ => Err(Fault::WrongForm),
    }
}

// Two digits are a byte, the first the higher.
fn hex_byte(high: u8, low: u8) -> Result<u8, Fault>
    ensures { result ≡ read_byte high low }
{
    let h = hex_digit(high)?;
    let l = hex_digit(low)?;
    Ok(h * 16 + l)
}

// Eight capital hexadecimal digits.
#[tactic(auto, using(crate::proofs::Digits::by_bytes))]
pub(crate) fn hex(s: &[u8]) -> Result<u32, Fault>
    ensures { result ≡ read_hex s.now }
{
    let [a, b, c, d, e, f, g, h] = s else {
        return Err(Fault::WrongForm);
    };
    let w = hex_byte(*a, *b)?;
    let x = hex_byte(*c, *d)?;
    let y = hex_byte(*e, *f)?;
    let z = hex_byte(*g, *h)?;
    Ok(u32::from_be_bytes([w, x, y, z]))
}

// A number below zero: a minus, and how far below, within its range. A number without minus is out of range.
pub(crate) fn below_zero(s: &[u8], range: Range) -> Result<i64, Fault>
    ensures { result ≡ read_below range s.now }
{
    match s {
        [b'-', digits @ ..] => number(digits, range).map(|n| -i64::from(n)),
        _ if is_number(s) => Err(Fault::OutOfRange),
        _ => Err(Fault::WrongForm),
    }
}
