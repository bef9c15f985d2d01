// Numbers in decimal, read from text: any number of digits, zeros may lead.
#![tactic(auto)]

ghost use Rattle.std.specs.Prelude.{◌≡◌, drop};
ghost use Rattle.decimal.specs.Decimal.{appended, decimal_in};

// What the digits from a place on are: the decimal that they make, where they are one, one or more digits that make a
// number below 2^64, and the place behind them.
#[derive(Clone, Copy, Debug, PartialEq, Eq)]
pub struct Decimal {
    pub value: Option<u64>,
    pub end: usize,
}

// What digits make with one more behind them, where that is below 2^64.
fn appended(value: Option<u64>, digit: u8) -> Option<u64>
    ensures { result ≡ appended value digit }
{
    // Where the number is far from 2^64 there is nothing to check.
    if let Some(n) = value {
        if n < u64::MAX / 16 {
            return Some(10 * n + u64::from(digit));
        }
    }
    value?.checked_mul(10)?.checked_add(u64::from(digit))
}

// Reads the digits from a place of s on, up to the first byte that is no digit or the end of s.
pub fn decimal_at(s: &[u8], at: usize) -> Decimal
    ensures { result ≡ decimal_in (drop at s.now) at }
{
    let mut value = Some(0);
    let mut end = at;
    for b in s.get(at..).unwrap_or(&[]) {
        if !b.is_ascii_digit() {
            break;
        }
        value = appended(value, *b - b'0');
        end += 1;
    }
    if end == at {
        return Decimal { value: None, end };
    }
    Decimal { value, end }
}
