// Visible texts in UTF-8: RFC 3629's examples, the code points at which one more byte is needed, and control
// characters.
use crate::print;
use woot::Replica;

// An empty replica at which the code points were typed one after another.
fn typed(points: &[u32]) -> Replica {
    let mut r = Replica::empty(1);
    for (i, &point) in points.iter().enumerate() {
        r = replica::insert(r, i, point).replica;
    }
    r
}

// Prints the bytes of the visible text after the code points were typed.
fn show(rt: &impl Print, label: &[u8], points: &[u32]) {
    let mut out = [0u8; 16];
    let n = print::count(replica::visible_text(typed(points), &mut out));
    print::text(rt, label);
    print::hexadecimal(rt, print::front(&out, n));
}

// The examples of RFC 3629's section 7.
pub(crate) fn examples(rt: &impl Print) {
    print::text(rt, b"RFC 3629, section 7: the examples.\n");
    show(
        rt,
        b"U+0041 U+2262 U+0391 U+002E",
        &[0x41, 0x2262, 0x391, 0x2E],
    );
    show(rt, b"U+D55C U+AD6D U+C5B4", &[0xD55C, 0xAD6D, 0xC5B4]);
    show(rt, b"U+65E5 U+672C U+8A9E", &[0x65E5, 0x672C, 0x8A9E]);
    show(rt, b"U+FEFF U+233B4", &[0xFEFF, 0x233B4]);
}

// The largest code point of one byte, and the smallest of two, three and four.
pub(crate) fn boundaries(rt: &impl Print) {
    print::text(
        rt,
        b"Code points 127, 128, 2,048 and 65,536 give hexadecimal EF BF BD; C2 80; E0 A0 80; F0 90 80 80.\n",
    );
    show(
        rt,
        b"U+007F U+0080 U+0800 U+10000",
        &[127, 128, 2048, 65536],
    );
}

// The ends of the ranges that go out as U+FFFD, and the code points beside them.
pub(crate) fn controls(rt: &impl Print) {
    print::text(
        rt,
        b"Code points 0 to 8, 11 to 31 and 127 go out as U+FFFD, hexadecimal EF BF BD.\n",
    );
    show(
        rt,
        b"U+0000 U+0008 U+0009 U+000A U+000B U+001F",
        &[0, 8, 9, 10, 11, 31],
    );
    show(
        rt,
        b"U+0020 U+007E U+007F U+0080 U+009F",
        &[32, 126, 127, 128, 159],
    );
}
