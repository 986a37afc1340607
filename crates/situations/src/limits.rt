// The situations about how much may wait, how much is held, and the last clock.
use crate::{calls, print};
use woot::{Identifier, Replica};

// An empty replica that has received site 2's inserts from a clock down to 2: each waits for the one that comes next,
// and the last of them for the one at clock 1.
fn behind(last: u16) -> Replica {
    let mut r = Replica::empty(1);
    for clock in (2..=last).rev() {
        r = calls::receive_silently(r, calls::link(2, clock));
    }
    r
}

// An empty replica that has received the first inserts of site 1.
fn grown(count: u16) -> Replica {
    let mut r = Replica::empty(16);
    for clock in 1..=count {
        r = calls::receive_silently(r, calls::link(1, clock));
    }
    r
}

// What waits is counted for each sender by itself.
pub(crate) fn sender_full(rt: &impl Print) {
    print::text(
        rt,
        b"Laptop 2 has 31 waiting: the next waits, the one after is refusal 10,",
    );
    print::text(rt, b" and laptop 3's first still waits.\n");
    let mut r = behind(32);
    print::counts(rt, r);
    r = calls::receive(rt, b"laptop 2's insert", r, calls::link(2, 33));
    r = calls::receive(rt, b"laptop 2's insert", r, calls::link(2, 34));
    let first = calls::after(Identifier::new(2, 1), Identifier::new(3, 1));
    r = calls::receive(rt, b"laptop 3's insert", r, first);
    print::counts(rt, r);
}

// Characters and pending inserts are counted together, and what is known is told before that. Returns the full replica.
pub(crate) fn document_full(rt: &impl Print) -> Replica {
    print::text(
        rt,
        b"1,023 rows and one waiting insert: a typed character is refusal 11; a known insert is still known.\n",
    );
    let mut r = grown(1023);
    r = calls::receive(rt, b"laptop 2's insert", r, calls::link(2, 2));
    print::counts(rt, r);
    r = calls::type_first(rt, r);
    r = calls::receive(rt, b"laptop 1's insert", r, calls::link(1, 500));
    r = calls::receive(rt, b"laptop 2's insert", r, calls::link(2, 2));
    print::counts(rt, r);
    r
}

// A site types its last character.
pub(crate) fn last_clock(rt: &impl Print) {
    print::text(rt, b"Clock 65,534: typing succeeds; 65,535: refusal 5.\n");
    let loaded = loading::load(b"S2\t3\t65534\n");
    let mut r = loaded.replica;
    r = calls::type_first(rt, r);
    r = calls::type_first(rt, r);
    print::counts(rt, r);
}

// A sender's full share of pending inserts is integrated by the call that brings the insert they wait for.
pub(crate) fn drained(rt: &impl Print) {
    print::text(
        rt,
        b"So every operation held back is gone from the list by the end of the call that brings the last thing",
    );
    print::text(rt, b" it needs.\n");
    let mut r = behind(33);
    print::counts(rt, r);
    r = calls::receive(rt, b"laptop 2's insert", r, calls::link(2, 1));
    print::counts(rt, r);
    print::text_line(rt, r);
}
