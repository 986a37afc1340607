// What the program prints: a sentence for each situation, and under it a line for each step. A write that fails is not
// told: whoever compares the output sees what it lacks.
ghost use Rattle.std.specs.Prelude.{◌≡◌, ◌<◌, take};

use answers::{Answer, Refusal};
use woot::Replica;

// The first n of the bytes, or all of fewer.
pub(crate) fn front(s: &[u8], n: usize) -> &[u8]
    ensures { result.now ≡ take n s.now }
{
    &s[..n.min(s.len())]
}

// How many bytes were written: none by a refused call.
pub(crate) fn count(w: Result<usize, Refusal>) -> usize {
    match w {
        Ok(n) => n,
        Err(_) => 0,
    }
}

// Prints bytes as they are.
pub(crate) fn text(rt: &impl Print, s: &[u8]) {
    let _ = rt.write_all(s);
}

// Prints a number after a tab.
pub(crate) fn number(rt: &impl Print, n: u64) {
    let _ = print!(rt; "\t{n}");
}

// Prints the line of a step: what was done, at which clock, the word, carried, thrown, and the refusal's number or 0.
pub(crate) fn step(rt: &impl Print, label: &[u8], clock: u16, answer: Answer) {
    let mut line = [0u8; 70];
    let n = count(transcript::report::report_line(clock as u64, answer, &mut line));
    text(rt, label);
    text(rt, b"\t");
    text(rt, front(&line, n));
}

// Prints how many characters a replica holds and how many operations wait.
pub(crate) fn counts(rt: &impl Print, r: Replica) {
    let d = r.document;
    let _ = println!(rt; "rows, waiting\t{}\t{}", d.length, d.waiting);
}

// Prints a replica's visible characters, and nothing of one that is not well formed.
pub(crate) fn text_line(rt: &impl Print, r: Replica) {
    if !replica::well_formed(r) {
        return;
    }
    let mut line = [0u8; 8199];
    let n = count(transcript::report::text_line(r, &mut line));
    text(rt, front(&line, n));
}

// Prints bytes in hexadecimal, parted by spaces, after a tab, and ends the line.
pub(crate) fn hexadecimal(rt: &impl Print, s: &[u8]) {
    let mut lead = '\t';
    for &b in s {
        let _ = print!(rt; "{lead}{b:02X}");
        lead = ' ';
    }
    text(rt, b"\n");
}
