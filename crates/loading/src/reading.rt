// The lines of a saved replica one after another.
ghost use Rattle.std.specs.Prelude.{◌≡◌, ◌&&◌, [], ◌≤◌, length, drop, get_or};
ghost use Rattle.lines.specs.Lines.{lines, closed};

// Whether both hold.
pub(crate) fn both(a: bool, b: bool) -> bool
    ensures { result ≡ a && b }
{
    a && b
}

// The first line without its line feed, or nothing.
pub(crate) fn head(bytes: &[u8]) -> &[u8]
    ensures { result.now ≡ get_or (lines bytes.now) 0 [] }
{
    lines::first_line(bytes)
}

// The bytes after the first n lines.
pub(crate) fn skip(bytes: &[u8], n: usize) -> &[u8]
    requires { n ≤ length (lines bytes.now) }
    ensures result_value { lines result.now ≡ drop n (lines bytes.now) }
    ensures result_value_2 { closed result.now ≡ closed bytes.now }
{
    let mut left = bytes;
    for i in 0..n {
        let next = lines::rest(left);
        left = next;
    }
    left
}
