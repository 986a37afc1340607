// Erasing and restoring: what was erased by mistake comes back, until a character's turns are used up.
use crate::{calls, print};
use woot::{Identifier, Replica};

// A character is erased and brought back to its place; what is not held, or is shown, cannot be.
pub(crate) fn brought_back(rt: &impl Print) {
    print::text(
        rt,
        b"Restoring names an identifier and raises a hidden row's turn by one; refusal 13 if the row isn't held or",
    );
    print::text(rt, b" is shown.\n");
    let mut r = Replica::empty(16);
    r = calls::receive_silently(r, calls::link(1, 1));
    r = calls::receive_silently(r, calls::link(1, 2));
    r = calls::restore(rt, r, Identifier::new(1, 1));
    r = calls::restore(rt, r, Identifier::new(1, 3));
    r = calls::erase_first(rt, r);
    print::text_line(rt, r);
    r = calls::restore(rt, r, Identifier::new(1, 1));
    print::text_line(rt, r);
}

// The last turn hides, and nothing comes after it.
pub(crate) fn toggles_used_up(rt: &impl Print) {
    print::text(
        rt,
        b"Restoring is turned away with 14 if the turn is 255.\n",
    );
    let loaded = loading::load(b"S2\t3\t9\nC\t1\t1\t97\t253\t0\t0\t0\t1\n");
    let mut r = loaded.replica;
    r = calls::restore(rt, r, Identifier::new(1, 1));
    r = calls::erase_first(rt, r);
    r = calls::restore(rt, r, Identifier::new(1, 1));
    print::text_line(rt, r);
}
