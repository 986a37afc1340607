// The hall program: reads lines of operations from standard input into an empty replica, prints a report on each, and
// last the visible characters. What it prints is worked out in `transcript`; here it is read and printed.
#![tactic(auto)]

ghost use Rattle.std.specs.Prelude.{◌≡◌, ◌≤◌, true, length, IfOk};
ghost use Rattle.woot.specs.Memory.{replica_well_formed};
ghost use Rattle.transcript.specs.Calls.{received_line};

use std::io::{self, IsTerminal, Read};
use woot::Replica;

// Prints bytes. Where that fails, a message says so, and the caller is to stop: what comes after lost bytes would
// mislead.
fn print(rt: &(impl Print + Eprint), bytes: &[u8]) -> io::Result<()> {
    let printed = rt.write_all(bytes);
    if printed.is_err() {
        let _ = rt.eprintln("hall: cannot write to standard output");
    }
    printed
}

// Says what the program waits for, if a person is to type it. The whole input is read before anything is printed, so at
// a terminal the program would seem to hang. Anywhere else it says nothing: the input comes by itself.
fn prompt(rt: &impl Eprint, input: &impl IsTerminal) {
    if input.is_terminal() {
        let _ = rt.eprintln(
            "hall: waiting for lines of edits, up to the end of the input (control-D); see man hall",
        );
    }
}

// Reads until the buffer is full, the input ends or a read fails, and answers how many bytes now stand at the buffer's
// start.
fn read_full(input: &mut impl Read, buffer: &mut [u8]) -> usize
    ensures { result ≤ length buffer.new }
{
    // It stays a while: a read says how far it went, and no index is counted.
    let mut done = 0;
    while done < buffer.len() {
        match input.read(&mut buffer[done..]) {
            Ok(0) | Err(_) => break,
            Ok(n) => done += n,
        }
    }
    done
}

// Takes the first line of the bytes, prints the report on it, and returns the replica after it.
fn print_line(
    rt: &(impl Print + Eprint),
    replica: Replica,
    number: u64,
    bytes: &[u8],
) -> io::Result<Replica>
    ensures { IfOk result (λ after. after ≡ (received_line replica bytes.now).replica) }
{
    let mut line = [0u8; 70];
    let processed = transcript::process_line(replica, number, bytes, &mut line);
    let written = processed.written;
    let after = processed.replica;
    if let Ok(n) = written {
        print(rt, &line[..n])?;
    }
    Ok(after)
}

// Prints the visible characters of a replica that is well formed, as the program's is from the first line to the last.
fn print_text(rt: &(impl Print + Eprint), replica: Replica) -> io::Result<()>
    requires { replica_well_formed replica ≡ true }
{
    let mut line = [0u8; 8199];
    let written = transcript::report::text_line(replica, &mut line);
    if let Ok(n) = written {
        print(rt, &line[..n])?;
    }
    Ok(())
}

// Answers the lines of the input one after another, as long as the answers can be printed.
fn run(rt: &(impl Print + Eprint), input: &[u8]) -> io::Result<()> {
    let mut replica = Replica::empty(16);
    // It stays a while: a for over the slice's `split_inclusive` beside a number gets no generated proof.
    let mut lines = input;
    let mut number = 1;
    while 0 < lines.len() {
        replica = print_line(rt, replica, number, lines)?;
        let after = codec::rest(lines);
        lines = after;
        number += 1;
    }
    print_text(rt, replica)
}

fn main(rt: HostRuntime) {
    let mut stdin = rt.stdin();
    prompt(&rt, &stdin);
    let mut input = [0u8; 65536];
    let n = read_full(&mut stdin, &mut input);
    // What fails was told.
    let _ = run(&rt, &input[..n]);
}
