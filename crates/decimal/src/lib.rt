// Numbers as text, for lines of fields: digits read as their number, each looked at once, and a number's digits put
// into a lent slice.
#![tactic(auto)]

ghost use Rattle.std.specs.Prelude.{◌≡◌, ◌+◌, ◌*◌, ◌<◌, ◌&&◌, [], MatchOption, eqb, ltb, length, drop};
ghost use Rattle.output.specs.Output.{placed, past};
ghost use Rattle.decimal.specs.Numeral.{digits};
ghost use Rattle.decimal.specs.Answers.{digits_front, DigitAt, field_by, scan_of, aligned};

// Why a field of bytes is not taken for a number.
#[derive(Clone, Copy, PartialEq, Eq)]
pub enum Fault {
    // A number above the limit.
    Above,
    // Not a number's digits, or not laid out as they should be.
    Malformed,
}

// The number that the digits at an offset say, and the offset just past them.
#[derive(Clone, Copy)]
pub struct Scanned {
    pub field: Result<u64, Fault>,
    pub next: usize,
}

// The digits of a number, which end where the array does.
#[derive(Clone, Copy)]
struct Aligned {
    bytes: [u8; 20],
    start: usize,
}

// Whether the value with one more digit after it is above the limit. No step of it can wrap.
fn exceeds(value: u64, digit: u64, limit: u64) -> bool
    ensures { result ≡ ltb limit (value * 10 + digit) }
{
    limit < digit || (limit - digit) / 10 < value
}

// The digit at the offset, if one stands there.
fn digit_at(s: &[u8], at: usize) -> Option<u64>
    ensures { MatchOption result (digits_front (drop at s.now) ≡ []) (λ d. DigitAt s.now at d) }
{
    let byte = *s.get(at)?;
    if !byte.is_ascii_digit() {
        return None;
    }
    Some(u64::from(byte - b'0'))
}

// Whether the first of so many digits is a `0` that does not stand alone.
fn zero_in_front(first: u8, count: usize) -> bool
    ensures { result ≡ eqb first 48 && ltb 1 count }
{
    first == b'0' && 1 < count
}

// What digits say, of which the first and their number are known: a value, if they are not told to be above the limit.
fn field_of(first: u8, count: usize, value: u64, above: bool, limit: u64) -> Result<u64, Fault>
    ensures { result ≡ field_by first count value above limit }
{
    if count == 0 || zero_in_front(first, count) {
        return Err(Fault::Malformed);
    }
    if above || limit < value {
        return Err(Fault::Above);
    }
    Ok(value)
}

// A value to which any digit may be added with no wrap.
const ROOMY: u64 = 1000000000000000000;

// Internal step: reads the digits at an offset, however many they are: each is looked at once. `lines` has looked that
// the offset is in the bytes.
pub fn scan(s: &[u8], from: usize, limit: u64) -> Scanned
    requires { from < length s.now }
    ensures { result ≡ scan_of s.now from limit }
{
    let mut value = 0;
    let mut above = false;
    let mut next = from;
    // No count of the digits is known before: each is looked at once.
    while let Some(digit) = digit_at(s, next) {
        if value < ROOMY || !exceeds(value, digit, limit) {
            value = value * 10 + digit;
        } else {
            above = true;
        }
        next += 1;
    }
    let field = field_of(s[from], next - from, value, above, limit);
    Scanned { field, next }
}

// The byte of one digit.
fn digit(n: u64) -> u8
    requires { n < 10 }
    ensures { result ≡ 48 + n }
{
    b'0' + n as u8
}

// Fills an array with the digits from the lowest on, at its end. A `while`, since it is the number that ends it, and
// not the array.
fn align(n: u64) -> Aligned
    ensures { result ≡ aligned n }
{
    let mut bytes = [0u8; 20];
    let mut start = 19;
    let mut rest = n;
    while 10 <= rest {
        bytes[start] = digit(rest % 10);
        rest /= 10;
        start -= 1;
    }
    bytes[start] = digit(rest);
    Aligned { bytes, start }
}

// How many digits a number has.
pub fn width(n: u64) -> usize
    ensures { result ≡ length (digits n) }
{
    20 - align(n).start
}

// Puts the digits of a number into the slice at the offset, all of them or none, and answers the offset just past them.
pub fn write(n: u64, out: &mut [u8], at: usize) -> usize
    ensures { (result ≡ past out.old at (digits n))
        × (out.new ≡ placed out.old at (digits n)) }
{
    let Aligned { bytes, start } = align(n);
    output::put_all(out, at, &bytes[start..])
}
