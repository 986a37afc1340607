// What the hall program makes of its input: it answers a line, and reports on it by `report`.
#![tactic(auto)]

pub mod report;

ghost use Rattle.std.specs.Prelude.{◌≡◌};
ghost use Rattle.transcript.specs.Calls.{received_line};
ghost use Rattle.transcript.specs.Loop.{processed, processed_out};

use answers::{Answer, Refusal};
use woot::{Receipt, Replica};

// Answers the first line of the bytes: receives the operation that it says, or refuses it and returns the replica as it
// was.
pub fn answer_line(replica: Replica, bytes: &[u8]) -> Receipt
    ensures { result ≡ received_line replica bytes.now }
{
    match codec::read_operation(bytes) {
        Ok(operation) => replica::receive(replica, operation),
        Err(refusal) => Receipt {
            answer: Answer::Refused(refusal),
            replica,
        },
    }
}

// What is made of a line of the input: how much of the report was written, and the replica after the line.
#[derive(Clone, Copy)]
pub struct Processed {
    pub written: Result<usize, Refusal>,
    pub replica: Replica,
}

// Answers the first line of the bytes and writes the report on it, as the line of the given number, at the front of the
// slice. A slice that is too short keeps every byte. The bytes after the line are `codec::rest` of these.
pub fn process_line(replica: Replica, number: u64, bytes: &[u8], out: &mut [u8]) -> Processed
    ensures value { result ≡ processed replica number bytes.now out.old }
    ensures out_after { out.new ≡ processed_out replica number bytes.now out.old }
{
    let receipt = answer_line(replica, bytes);
    let answer = receipt.answer;
    let left = receipt.replica;
    let written = report::report_line(number, answer, out);
    Processed {
        written,
        replica: left,
    }
}
