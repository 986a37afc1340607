// A text read strictly as UTF-8 (RFC 3629): what it has at an offset, and how many characters it has.
#![tactic(auto)]

ghost use Rattle.std.specs.Prelude.{◌≡◌, ◌+◌, ◌-◌, ◌<◌, ◌≤◌, IfSome, length, drop};
ghost use Rattle.decoding.specs.Decoding.{decoded, continued};
ghost use Rattle.decoding.specs.Offsets.{answer_at, decoded_at, count_of, tail_at, accepted_at};

// What a text has at an offset. An enum, since there are three cases: an Option<Result<..>> would nest two types, with
// an error that says nothing.
#[derive(Clone, Copy)]
pub enum Decoded {
    // A code point, and the offset just past its bytes.
    CodePoint { code_point: u32, next: usize },
    // Nothing: the text ends here.
    End,
    // Bytes that no code point is encoded as.
    Malformed,
}

// A byte as a number of the width of code points.
fn wide(byte: u8) -> u32
    ensures { result ≡ byte }
{
    u32::from(byte)
}

// The six bits of the byte 10xxxxxx at the offset, if one stands there.
fn tail_bits(bytes: &[u8], at: usize) -> Option<u32>
    ensures value { result ≡ tail_at bytes.now at }
    ensures bound { IfSome result (λ bits. bits < 64) }
{
    let byte = wide(*bytes.get(at)?);
    match byte {
        128..=191 => Some(byte % 64),
        _ => None,
    }
}

// The number as a code point of so many bytes, which end at the offset, unless it is none or takes fewer.
fn accept(size: usize, n: u32, next: usize) -> Decoded
    ensures { result ≡ accepted_at size n next }
{
    if !utf8::is_code_point(n) {
        return Decoded::Malformed;
    }
    if utf8::encoded_length(n) != size {
        return Decoded::Malformed;
    }
    Decoded::CodePoint {
        code_point: n,
        next,
    }
}

// Internal step: reads the bytes 10xxxxxx of a character of the size, whose first byte stands at the offset and has the
// lead's bits. `decode` knows that the byte is there and how many bits it has.
fn follow(bytes: &[u8], at: usize, size: usize, lead: u32) -> Decoded
    requires { (at < length bytes.now) × (1 ≤ size) × (size ≤ 4) × (lead < 64) }
    ensures { result ≡ answer_at at (continued size (size - 1) lead (drop (at + 1) bytes.now)) }
{
    let mut n = lead;
    for i in 1..size {
        let Some(bits) = tail_bits(bytes, at + i) else {
            return Decoded::Malformed;
        };
        n = n * 64 + bits;
    }
    accept(size, n, at + size)
}

// What the text has at the offset; past its end, nothing.
pub fn decode(bytes: &[u8], at: usize) -> Decoded
    ensures { result ≡ decoded_at bytes.now at }
{
    if bytes.len() <= at {
        return Decoded::End;
    }
    let lead = wide(bytes[at]);
    match lead {
        0..=127 => Decoded::CodePoint {
            code_point: lead,
            next: at + 1,
        },
        192..=223 => follow(bytes, at, 2, lead % 32),
        224..=239 => follow(bytes, at, 3, lead % 16),
        240..=247 => follow(bytes, at, 4, lead % 8),
        _ => Decoded::Malformed,
    }
}

// How many characters a text has, read to its end; none where it is not UTF-8. Its loop goes from character to
// character, each as long as it is, and so counts no index.
pub fn count(bytes: &[u8]) -> Option<usize>
    ensures { result ≡ count_of (decoded bytes.now) }
{
    let mut at = 0;
    let mut count = 0;
    while at < bytes.len() {
        match decode(bytes, at) {
            Decoded::CodePoint {
                code_point: _,
                next,
            } => {
                at = next;
                count += 1;
            }
            Decoded::End => return Some(count),
            Decoded::Malformed => return None,
        }
    }
    Some(count)
}
