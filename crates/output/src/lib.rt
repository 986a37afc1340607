// Bytes put into a lent slice, one run after another: each call answers the offset at which the next goes on.
#![tactic(auto)]

ghost use Rattle.std.specs.Prelude.{◌≡◌, List, [], ◌∷◌};
ghost use Rattle.output.specs.Output.{has_room, placed, past};

// Whether a slice of the given size has room for count bytes from the offset on.
pub fn has_room(size: usize, at: usize, count: usize) -> bool
    ensures { result ≡ has_room size at count }
{
    at <= size && count <= size - at
}

// Puts the bytes into the slice at the offset, all of them or none, and answers the offset just past them.
pub fn put_all(out: &mut [u8], at: usize, bytes: &[u8]) -> usize
    ensures { (result ≡ past out.old at bytes.now)
        × (out.new ≡ placed out.old at bytes.now) }
{
    if !has_room(out.len(), at, bytes.len()) {
        return at;
    }
    // It stays a loop of stores: the library's copy would be a call of `memmove`, a name that the archive for C would
    // need from outside.
    for i in 0..bytes.len() {
        out[at + i] = bytes[i];
    }
    at + bytes.len()
}

// Puts one byte into the slice at the offset, if there is room, and answers the offset just past it.
pub fn put(out: &mut [u8], at: usize, byte: u8) -> usize
    ensures { (result ≡ past out.old at (byte ∷ []))
        × (out.new ≡ placed out.old at (byte ∷ [])) }
{
    if at < out.len() {
        out[at] = byte;
        return at + 1;
    }
    at
}
