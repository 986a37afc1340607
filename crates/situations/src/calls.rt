// The calls of the steps: each prints what it answered and returns the replica.
ghost use Rattle.std.specs.Prelude.{◌≡◌, ◌≤◌};
ghost use Rattle.woot.specs.Sending.{answer_of};
ghost use Rattle.woot.specs.Replicas.{received};

use crate::print;
use answers::{Answer, Refusal};
use woot::{Identifier, Insert, Operation, Replica, Sent};

// An insert between another character and the end mark. Its code point tells its clock: 97 at clock 1.
pub(crate) fn after(previous: Identifier, id: Identifier) -> Insert
    ensures { (result.id ≡ id) × (result.previous ≡ previous) }
{
    let clock = id.clock;
    Insert {
        id,
        code_point: 96 + clock as u32,
        previous,
        next: Identifier::END,
    }
}

// The insert of a site at a clock: after the one before it of the same site, the first after the begin mark.
pub(crate) fn link(site: u8, clock: u16) -> Insert
    requires { 1 ≤ clock }
{
    let id = Identifier::new(site, clock);
    if clock == 1 {
        return after(Identifier::BEGIN, id);
    }
    after(Identifier::new(site, clock - 1), id)
}

// Receives an insert and prints nothing.
pub(crate) fn receive_silently(r: Replica, i: Insert) -> Replica
    ensures { result ≡ (received r (Operation.Insert i)).replica }
{
    let receipt = replica::receive(r, Operation::Insert(i));
    receipt.replica
}

// Receives an insert.
pub(crate) fn receive(rt: &impl Print, label: &[u8], r: Replica, i: Insert) -> Replica {
    let clock = i.id.clock;
    let receipt = replica::receive(r, Operation::Insert(i));
    let answer = receipt.answer;
    print::step(rt, label, clock, answer);
    receipt.replica
}

// What a call that sends answered, without the operation.
fn answer_of(answer: Result<Sent, Refusal>) -> Answer
    ensures { result ≡ answer_of answer }
{
    match answer {
        Ok(sent) => Answer::Done {
            integrated: sent.integrated,
            discarded: sent.discarded,
        },
        Err(refusal) => Answer::Refused(refusal),
    }
}

// Erases the first visible character.
pub(crate) fn erase_first(rt: &impl Print, r: Replica) -> Replica {
    let generated = replica::delete(r, 1);
    let answer = generated.answer;
    print::step(rt, b"erasing place", 1, answer_of(answer));
    generated.replica
}

// Restores a character.
pub(crate) fn restore(rt: &impl Print, r: Replica, id: Identifier) -> Replica {
    let clock = id.clock;
    let generated = replica::restore(r, id);
    let answer = generated.answer;
    print::step(rt, b"restoring, at clock", clock, answer_of(answer));
    generated.replica
}

// Types a character before all others.
pub(crate) fn type_first(rt: &impl Print, r: Replica) -> Replica {
    let clock = r.site.clock;
    let generated = replica::insert(r, 0, 65);
    let answer = generated.answer;
    print::step(rt, b"typing at clock", clock, answer_of(answer));
    generated.replica
}
