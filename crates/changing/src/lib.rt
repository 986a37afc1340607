// What the calls do that change a replica they were lent, once nothing that was handed is refused for its layout or
// range: the rule, and then the bytes of what it leaves.
#![tactic(auto)]

ghost use Rattle.std.specs.Prelude.{◌≡◌, true, [], ◌≤◌, length};
ghost use Rattle.woot.specs.Memory.{replica_well_formed, character_numbers, character_slots};
ghost use Rattle.woot.specs.Memory.{pending_numbers, pending_slots};
ghost use Rattle.woot.specs.Replicas.{received_at, inserted, deleted, restored};
ghost use Rattle.memory.specs.Lent.{viewed, Full};
ghost use Rattle.replica.specs.Outcomes.{Sendable, sent_by};
ghost use Rattle.saved.specs.Calls.{bytes_of};
ghost use Rattle.saving.specs.Documents.{lines_in};
ghost use Rattle.effects.specs.Effects.{Leaves, writing_both};
ghost use Rattle.effects.specs.Steps.{receipt_at_left};
ghost use Rattle.effects.specs.Steps.{Savable, generated_left, lines_left};

use answers::{Answer, Refusal};
use effects::results;
use reception::Decision;
use saved::Version;
use woot::{Identifier, Operation, Replica};

// Internal step: receives the operation with a cursor at the insertion point, saves what the replica then is if that
// changed it, and notes the shift.
pub fn receive_at(replica: &mut Replica, operation: Operation, point: usize, out: &mut [u8]) -> u64
    requires { Full replica.old }
    ensures full_after { Full replica.new }
    ensures value { Leaves (receipt_at_left (received_at replica.old operation point) out.old)
        result out.new [] }
{
    let judged = cursor::judge_at(replica, operation, point);
    let received = cursor::carry_at(replica, operation, point, judged);
    let answer = received.answer;
    if !answer.is_change() {
        return results::number_of(answer, 0, 0);
    }
    effects::save_noted(answer, cursor::bits(received.shift), replica, out)
}

// Saves the replica and writes the lines of the operations in these columns, or neither: the lines are measured before
// anything is written.
fn save_lines<'a>(
    answer: Answer,
    replica: &'a Replica,
    typed: &'a [u32],
    count: usize,
    out: &mut [u8],
    lines: &mut [u8],
) -> u64
    requires characters_len { length replica.now.document.characters ≡ character_numbers }
    requires length_le_character_slots { replica.now.document.length ≤ character_slots }
    requires length_in_bounds { replica.now.document.length ≤ length replica.now.document.toggles }
    requires pending_len { length replica.now.document.pending ≡ pending_numbers }
    requires waiting_le_pending_slots { replica.now.document.waiting ≤ pending_slots }
    requires typed_len { length typed.now ≡ character_numbers }
    requires count_le_character_slots { count ≤ character_slots }
    ensures { Leaves (writing_both answer (bytes_of replica.now) (lines_in typed.now count)
        out.old lines.old)
        result out.new lines.new }
{
    let space = saving::operations::measure(typed, count, lines.len(), 0);
    match space {
        None => results::number_of_refusal(Refusal::Output),
        Some(length) => {
            let written = saving::write_replica(Version::Second, replica, out);
            match written {
                Err(refusal) => results::number_of_refusal(refusal),
                Ok(saved) => {
                    saving::operations::put_lines(typed, count, lines, 0);
                    results::number_of(answer, saved, length)
                }
            }
        }
    }
}

// Carries out what was made here, saves what the replica then is and writes the line of the operation to be sent, or
// answers the refusal. The calls have judged on the same replica, and what they make leaves it well formed.
fn send_made(
    replica: &mut Replica,
    made: Result<(Operation, Decision), Refusal>,
    out: &mut [u8],
    line: &mut [u8],
) -> u64
    requires full { Full replica.old }
    requires sendable { Sendable (viewed replica.old) made }
    requires savable { Savable (sent_by replica.old made) }
    ensures full_after { Full replica.new }
    ensures value { Leaves (generated_left (sent_by replica.old made) out.old line.old)
        result out.new line.new }
{
    let sent = replica::send_made(replica, made);
    match sent {
        Err(refusal) => results::number_of_refusal(refusal),
        Ok(sent) => {
            let done = Answer::Done {
                integrated: sent.integrated,
                discarded: sent.discarded,
            };
            effects::save_both(done, replica, sent.operation, out, line)
        }
    }
}

// Internal step: inserts a code point, saves what the replica then is and writes the line to be sent.
pub fn insert(
    replica: &mut Replica,
    point: usize,
    code_point: u32,
    out: &mut [u8],
    line: &mut [u8],
) -> u64
    requires { Full replica.old }
    ensures full_after { Full replica.new }
    ensures value { Leaves (generated_left (inserted replica.old point code_point) out.old line.old)
        result out.new line.new }
{
    let made = generation::decide_insert(replica, point, code_point);
    send_made(replica, made, out, line)
}

// Internal step: deletes a visible character, saves and writes alike.
pub fn delete(replica: &mut Replica, place: usize, out: &mut [u8], line: &mut [u8]) -> u64
    requires { Full replica.old }
    ensures full_after { Full replica.new }
    ensures value { Leaves (generated_left (deleted replica.old place) out.old line.old)
        result out.new line.new }
{
    let made = generation::decide_delete(replica, place);
    send_made(replica, made, out, line)
}

// Internal step: restores a hidden character, saves and writes alike.
pub fn restore(replica: &mut Replica, id: Identifier, out: &mut [u8], line: &mut [u8]) -> u64
    requires { Full replica.old }
    ensures full_after { Full replica.new }
    ensures value { Leaves (generated_left (restored replica.old id) out.old line.old)
        result out.new line.new }
{
    let made = generation::decide_restore(replica, id);
    send_made(replica, made, out, line)
}

// Internal step: saves the new replica and writes the lines of what was typed, or answers and no more where nothing
// was. Where something was typed the calls left the replica well formed.
pub fn send_lines(
    answer: Answer,
    replica: Replica,
    typed: &[u32],
    count: usize,
    out: &mut [u8],
    lines: &mut [u8],
) -> u64
    requires typed_len { length typed.now ≡ character_numbers }
    requires count_le_character_slots { count ≤ character_slots }
    requires replica_value { (count ≡ 0 → ⊥) → replica_well_formed replica ≡ true }
    ensures { Leaves (lines_left answer replica typed.now count out.old
        lines.old) result out.new lines.new }
{
    if count == 0 {
        return results::number_of(answer, 0, 0);
    }
    save_lines(answer, &replica, typed, count, out, lines)
}
