// The calls on a replica: receiving, inserting, deleting, restoring, the check of its form and the visible text. What
// is asked is looked at on the replica's arrays and decided on, and then carried out where they lie.
#![tactic(auto)]

ghost use Rattle.std.specs.Prelude.{◌≡◌, List, [], ◌≤◌, length, take};
ghost use Rattle.woot.specs.declared.Character.{Character};
ghost use Rattle.woot.specs.Memory.{replica_well_formed};
ghost use Rattle.woot.specs.Memory.{character_numbers, character_slots, code_points_of, code_point_column, toggle_counts};
ghost use Rattle.woot.specs.Text.{text};
ghost use Rattle.woot.specs.Writing.{written_as, output_after};
ghost use Rattle.woot.specs.Replicas.{received, inserted, deleted, restored};
ghost use Rattle.memory.specs.Lent.{viewed, Full};
ghost use Rattle.replica.specs.Outcomes.{Sendable, sent_by};
ghost use Rattle.replica.specs.Texts.{text_written, text_out};

use answers::Refusal;
use reception::Decision;
use woot::{
    CHARACTER_NUMBERS, CODE_POINTS, Generated, Identifier, Operation, Receipt, Replica, Sent,
};

// Whether a replica is well formed. (Document 01: in form.)
pub fn well_formed(replica: Replica) -> bool
    ensures { result ≡ replica_well_formed replica }
{
    well_formed::is_well_formed(&replica)
}

// Receives an operation. (Document 01: receiving.)
pub fn receive(replica: Replica, operation: Operation) -> Receipt
    ensures { result ≡ received replica operation }
{
    let mut after = replica;
    let decision = reception::decide(&after, operation);
    let counts = execution::carry_out(&mut after, operation, decision);
    let answer = execution::answer(decision, counts);
    Receipt {
        answer,
        replica: after,
    }
}

// Internal step: carries out on a replica an operation that was made here and answers it with the counts, or answers
// the refusal. The calls have judged on the same replica.
pub fn send_made(
    replica: &mut Replica,
    made: Result<(Operation, Decision), Refusal>,
) -> Result<Sent, Refusal>
    requires full { Full replica.old }
    requires sendable { Sendable (viewed replica.old) made }
    ensures full_after { Full replica.new }
    ensures value { record { answer = result; replica = replica.new } ≡ sent_by replica.old made }
{
    match made {
        Err(refusal) => Err(refusal),
        Ok((operation, decision)) => {
            let counts = execution::carry_out(replica, operation, decision);
            Ok(Sent {
                operation,
                integrated: counts.integrated,
                discarded: counts.discarded,
            })
        }
    }
}

// The same on a replica that goes by value.
fn send(replica: Replica, made: Result<(Operation, Decision), Refusal>) -> Generated
    requires { Sendable (viewed replica) made }
    ensures { result ≡ sent_by replica made }
{
    let mut after = replica;
    let answer = send_made(&mut after, made);
    Generated {
        answer,
        replica: after,
    }
}

// Inserts a code point at the insertion point, counted in visible characters, and answers the operation to be sent.
// (Document 01: typing.)
pub fn insert(replica: Replica, point: usize, code_point: u32) -> Generated
    ensures { result ≡ inserted replica point code_point }
{
    let made = generation::decide_insert(&replica, point, code_point);
    send(replica, made)
}

// Deletes the visible character at the place, counted from 1, and answers the operation to be sent. (Document 01:
// erasing.)
pub fn delete(replica: Replica, place: usize) -> Generated
    ensures { result ≡ deleted replica place }
{
    let made = generation::decide_delete(&replica, place);
    send(replica, made)
}

// Restores the hidden character with the identifier, and answers the operation to be sent. (Document 02, Req 05:
// restoring.)
pub fn restore(replica: Replica, id: Identifier) -> Generated
    ensures { result ≡ restored replica id }
{
    let made = generation::decide_restore(&replica, id);
    send(replica, made)
}

// Writes the text of the first n characters of a replica that is well formed. The column of their code points is a part
// of the array.
fn write_text<'a>(
    characters: &'a [u32],
    toggles: &'a [u8],
    n: usize,
    out: &mut [u8],
) -> Result<usize, Refusal>
    requires characters_len { length characters.now ≡ character_numbers }
    requires toggles_len { length toggles.now ≡ character_slots }
    requires n_le_character_slots { n ≤ character_slots }
    ensures value { (cs : List Character) → code_points_of cs ≡ take n (code_point_column characters.now)
        → toggle_counts cs ≡ take n toggles.now
        → result ≡ written_as [] (text cs) out.old }
    ensures out_after { (cs : List Character) → code_points_of cs ≡ take n (code_point_column characters.now)
        → toggle_counts cs ≡ take n toggles.now
        → out.new ≡ output_after [] (text cs) out.old }
{
    visible::write_text(&characters[CODE_POINTS..CHARACTER_NUMBERS], toggles, n, out)
}

// Internal step: the visible text of a replica that is lent.
pub fn visible_text_in(replica: &Replica, out: &mut [u8]) -> Result<usize, Refusal>
    requires { Full replica.now }
    ensures value { result ≡ text_written replica.now out.old }
    ensures out_after { out.new ≡ text_out replica.now out.old }
{
    if !well_formed::is_well_formed(replica) {
        return Err(Refusal::Form);
    }
    let document = &replica.document;
    write_text(
        &document.characters,
        &document.toggles,
        document.length,
        out,
    )
}

// The visible text of a replica as UTF-8 into the slice: its length, or refusal 3 or 12, and then no byte is changed.
pub fn visible_text(replica: Replica, out: &mut [u8]) -> Result<usize, Refusal>
    ensures value { result ≡ text_written replica out.old }
    ensures out_after { out.new ≡ text_out replica out.old }
{
    visible_text_in(&replica, out)
}
