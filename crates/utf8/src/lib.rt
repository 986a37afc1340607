// UTF-8 (RFC 3629): which numbers are code points, and the bytes of one, and their number, put into a lent slice.
#![tactic(auto)]

ghost use Rattle.std.specs.Prelude.{◌≡◌, ◌+◌, ◌<◌};
ghost use Rattle.output.specs.Output.{placed, past};
ghost use Rattle.utf8.specs.CodePoints.{is_code_point};
ghost use Rattle.utf8.specs.Encoding.{encode, encoded_length};
ghost use Rattle.utf8.specs.Encoded.{encoding};

// The bytes of one code point: the first `length` of the four, and zeros after them.
#[derive(Clone, Copy)]
pub struct Encoded {
    pub bytes: [u8; 4],
    pub length: usize,
}

// How many bytes the code point takes, by RFC 3629's ranges. What is above them is no code point, and counts 4.
pub fn encoded_length(code_point: u32) -> usize
    ensures { result ≡ encoded_length code_point }
{
    match code_point {
        0..=127 => 1,
        128..=2047 => 2,
        2048..=65535 => 3,
        65536..=1114111 => 4,
        _ => 4,
    }
}

// A byte of the given lead, 110xxxxx or 10xxxxxx for example, over the bits that it carries.
fn byte(lead: u8, bits: u32) -> u8
    requires { lead + bits < 256 }
    ensures { result ≡ lead + bits }
{
    lead + bits as u8
}

// The bytes of the code point; of a number beyond 21 bits, those of its lowest 21.
pub fn encode(code_point: u32) -> Encoded
    ensures { result ≡ encoding code_point }
{
    let length = encoded_length(code_point);
    if length == 1 {
        let only = byte(0, code_point % 128);
        return Encoded {
            bytes: [only, 0, 0, 0],
            length,
        };
    }
    let last = byte(128, code_point % 64);
    if length == 2 {
        let first = byte(192, code_point / 64 % 32);
        return Encoded {
            bytes: [first, last, 0, 0],
            length,
        };
    }
    let third = byte(128, code_point / 64 % 64);
    if length == 3 {
        let first = byte(224, code_point / 4096 % 16);
        return Encoded {
            bytes: [first, third, last, 0],
            length,
        };
    }
    let second = byte(128, code_point / 4096 % 64);
    let first = byte(240, code_point / 262144 % 8);
    Encoded {
        bytes: [first, second, third, last],
        length,
    }
}

// Puts the bytes of the code point into the slice at the offset, all of them or none, and answers the offset just past
// them.
pub fn write(code_point: u32, out: &mut [u8], at: usize) -> usize
    ensures { (result ≡ past out.old at (encode code_point))
        × (out.new ≡ placed out.old at (encode code_point)) }
{
    let Encoded { bytes, length } = encode(code_point);
    output::put_all(out, at, &bytes[..length])
}

// Whether the number is a code point: at most U+10FFFF, and no surrogate.
#[tactic(auto, unfolding(crate::specs::CodePoints::is_code_point, crate::specs::CodePoints::within))]
pub fn is_code_point(n: u32) -> bool
    ensures { result ≡ is_code_point n }
{
    matches!(n, 0..=55295 | 57344..=1114111)
}
