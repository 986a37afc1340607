// What the calls do once nothing that was handed is refused for its layout or range: the rule, and then the bytes of
// what it leaves.
#![tactic(auto)]

pub mod counting;
pub mod results;

ghost use Rattle.std.specs.Prelude.{◌≡◌, true, [], ◌≤◌, length};
ghost use Rattle.answers.specs.declared.Answer.TheVariants.{Done};
ghost use Rattle.answers.specs.Answers.{changes};
ghost use Rattle.woot.specs.Sending.{answer_of};
ghost use Rattle.woot.specs.Memory.{replica_well_formed, character_numbers, character_slots};
ghost use Rattle.woot.specs.Memory.{pending_numbers, pending_slots};
ghost use Rattle.woot.specs.Replicas.{received_at};
ghost use Rattle.memory.specs.Lent.{Full};
ghost use Rattle.codec.specs.Operations.{operation_line};
ghost use Rattle.saved.specs.Calls.{bytes_of};
ghost use Rattle.effects.specs.Results.{number_of};
ghost use Rattle.effects.specs.Effects.{Leaves, writing_noted, writing, writing_both};
ghost use Rattle.effects.specs.Steps.{after_noting, after_writing, receipt_at_left};
ghost use Rattle.effects.specs.Steps.{generated_left, text_left};

use answers::{Answer, Refusal};
use saved::Version;
use woot::{Generated, Operation, Replica};

// What is returned once writing was tried, with a note where the length of the second output stands.
fn after_noting(answer: Answer, note: usize, written: Result<usize, Refusal>) -> u64
    ensures { result ≡ number_of (after_noting answer note written) }
{
    match written {
        Ok(n) => results::number_of(answer, n, note),
        Err(refusal) => results::number_of_refusal(refusal),
    }
}

// What is returned once writing was tried.
fn after_writing(answer: Answer, written: Result<usize, Refusal>) -> u64
    ensures { result ≡ number_of (after_writing answer written) }
{
    after_noting(answer, 0, written)
}

// Internal step: saves a replica that is lent, and answers so with a note. Its counts are within its arrays.
pub fn save_noted(answer: Answer, note: usize, replica: &Replica, out: &mut [u8]) -> u64
    requires characters_len { length replica.now.document.characters ≡ character_numbers }
    requires length_le_character_slots { replica.now.document.length ≤ character_slots }
    requires length_in_bounds { replica.now.document.length ≤ length replica.now.document.toggles }
    requires pending_len { length replica.now.document.pending ≡ pending_numbers }
    requires waiting_le_pending_slots { replica.now.document.waiting ≤ pending_slots }
    ensures { Leaves (writing_noted answer note (bytes_of replica.now) out.old) result out.new [] }
{
    let written = saving::write_replica(Version::Second, replica, out);
    after_noting(answer, note, written)
}

// What is returned by a call that writes and does nothing else.
pub fn written(written: Result<usize, Refusal>) -> u64
    ensures { result ≡ number_of (after_writing (Done 0 0) written) }
{
    let none = Answer::Done {
        integrated: 0,
        discarded: 0,
    };
    after_writing(none, written)
}

// Internal step: saves the replica, and answers so. The calls hand over one that is well formed.
pub fn save(answer: Answer, replica: Replica, out: &mut [u8]) -> u64
    requires { replica_well_formed replica ≡ true }
    ensures { Leaves (writing answer (bytes_of replica) out.old) result out.new [] }
{
    save_noted(answer, 0, &replica, out)
}

// Writes the visible text.
pub fn show(replica: Replica, out: &mut [u8]) -> u64
    ensures { Leaves (text_left replica out.old) result out.new [] }
{
    written(replica::visible_text(replica, out))
}

// Internal step: the same of a replica that is lent.
pub fn show_in(replica: &Replica, out: &mut [u8]) -> u64
    requires { Full replica.now }
    ensures { Leaves (text_left replica.now out.old) result out.new [] }
{
    written(replica::visible_text_in(replica, out))
}

// Receives the operation with a cursor at the insertion point, saves the replica if that changed it, and notes the
// shift.
pub fn receive_at(replica: Replica, operation: Operation, point: usize, out: &mut [u8]) -> u64
    ensures { Leaves (receipt_at_left (received_at replica operation point) out.old)
        result out.new [] }
{
    let receipt = cursor::receive_at(replica, operation, point);
    let answer = receipt.answer;
    if !answer.is_change() {
        return results::number_of(answer, 0, 0);
    }
    let after = receipt.replica;
    save_noted(answer, cursor::bits(receipt.shift), &after, out)
}

// Internal step: saves a replica that is lent and writes the line, or neither: the line is measured before anything is
// written.
pub fn save_both(
    answer: Answer,
    replica: &Replica,
    operation: Operation,
    out: &mut [u8],
    line: &mut [u8],
) -> u64
    requires characters_len { length replica.now.document.characters ≡ character_numbers }
    requires length_le_character_slots { replica.now.document.length ≤ character_slots }
    requires length_in_bounds { replica.now.document.length ≤ length replica.now.document.toggles }
    requires pending_len { length replica.now.document.pending ≡ pending_numbers }
    requires waiting_le_pending_slots { replica.now.document.waiting ≤ pending_slots }
    ensures { Leaves (writing_both answer (bytes_of replica.now) (operation_line operation)
        out.old line.old)
        result out.new line.new }
{
    let space = line_writing::measure(operation, line.len(), 0);
    match space {
        None => results::number_of_refusal(Refusal::Output),
        Some(length) => {
            let written = saving::write_replica(Version::Second, replica, out);
            match written {
                Err(refusal) => results::number_of_refusal(refusal),
                Ok(saved) => {
                    line_writing::put_operation(operation, line, 0);
                    results::number_of(answer, saved, length)
                }
            }
        }
    }
}

// Internal step: saves the new replica and writes the line of the operation to be sent, or answers the refusal. What
// the calls generate leaves the replica well formed.
pub fn save_and_send(generated: Generated, out: &mut [u8], line: &mut [u8]) -> u64
    requires { changes (answer_of generated.answer) ≡ true
        → replica_well_formed generated.replica ≡ true }
    ensures { Leaves (generated_left generated out.old line.old)
        result out.new line.new }
{
    let answer = generated.answer;
    match answer {
        Err(refusal) => results::number_of_refusal(refusal),
        Ok(sent) => {
            let done = Answer::Done {
                integrated: sent.integrated,
                discarded: sent.discarded,
            };
            let after = generated.replica;
            save_both(done, &after, sent.operation, out, line)
        }
    }
}
