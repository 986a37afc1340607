// Round trips: the largest lines read and written back, and a saved replica loaded and saved again.
use crate::print;
use woot::{Operation, Replica};

// Prints the length of an operation's line and the line.
fn write_back(rt: &impl Print, o: Operation) {
    let mut out = [0u8; 37];
    let n = print::count(line_writing::write_operation(o, &mut out));
    print::number(rt, n as u64);
    print::text(rt, b"\t");
    print::text(rt, print::front(&out, n));
}

// Reads a line and writes its operation back.
fn round_trip(rt: &impl Print, label: &[u8], line: &[u8]) {
    print::text(rt, label);
    match codec::read_operation(line) {
        Ok(o) => write_back(rt, o),
        Err(_) => print::text(rt, b"\trefused\n"),
    }
}

// The longest lines of both kinds, and one that is read, and written no more.
pub(crate) fn largest(rt: &impl Print) {
    print::text(
        rt,
        b"Insert: at most 37 bytes. Erase and restore: at most 18 bytes.\n",
    );
    round_trip(
        rt,
        b"insert",
        b"I\t16\t65535\t1114111\t16\t65534\t16\t65533\n",
    );
    round_trip(rt, b"erase", b"E\t16\t16\t65535\t255\n");
    print::text(rt, b"A D line is read as turn 1 and is written no more.\n");
    round_trip(rt, b"D line", b"D\t16\t16\t65535\n");
}

// Prints the lengths of two saved replicas and whether they are the same bytes.
fn compare(rt: &impl Print, first: &[u8], second: &[u8]) {
    print::text(rt, b"saved; loaded and saved again");
    print::number(rt, first.len() as u64);
    print::number(rt, second.len() as u64);
    if first == second {
        print::text(rt, b"\tequal\n");
    } else {
        print::text(rt, b"\tdifferent\n");
    }
}

// Loads a saved replica, saves it again and compares the two.
fn save_again(rt: &impl Print, first: &[u8]) {
    let loaded = loading::load(first);
    let r = loaded.replica;
    let mut second = [0u8; 65536];
    let n = print::count(saving::save(r, &mut second));
    compare(rt, first, print::front(&second, n));
}

// Saves a replica, loads it and saves it again.
pub(crate) fn save_twice(rt: &impl Print, r: Replica) {
    let mut first = [0u8; 65536];
    let n = print::count(saving::save(r, &mut first));
    save_again(rt, print::front(&first, n));
}
