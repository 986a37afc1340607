// Pasting a block of text in UTF-8 at an insertion point, all of it or none: the whole block is looked at, and then its
// characters are typed one after another. (Document 02, Req 11.)
#![tactic(auto)]

ghost use Rattle.std.specs.Prelude.{◌≡◌, true, List, [], ℕ, length};
ghost use Rattle.std.proofs.Math.Option.{some};
ghost use Rattle.lists.specs.Lists.{every};
ghost use Rattle.decoding.specs.Decoding.{decoded};
ghost use Rattle.woot.specs.Memory.{character_numbers};
ghost use Rattle.woot.specs.Ranges.{is_code_point};
ghost use Rattle.memory.specs.Columns.{meaning};
ghost use Rattle.memory.specs.Lent.{viewed, Full};
ghost use Rattle.typing.specs.Columns.{typed_columns};
ghost use Rattle.typing.specs.Steps.{Unwritten, points_in, AllTyped};
ghost use Rattle.block_judging.specs.Steps.{Spacious};
ghost use Rattle.pasting.specs.Replicas.{pasted_by, pasted_as};
ghost use Rattle.pasting.specs.Steps.{Readable, Pasteable};

use answers::{Answer, Refusal};
use block_judging::Judged;
use decoding::Decoded;
use keystroke::Typing;
use woot::{CHARACTER_NUMBERS, CHARACTERS, CODE_POINTS, Replica};

// What pasting returns: the answer, the replica as it is then, and the characters that it typed, in sequence, from
// which a caller writes their insert lines. They lie as a document's do, each in the same slot of four columns, with
// zeros behind the last.
#[derive(Clone, Copy)]
pub struct Pasted {
    pub answer: Answer,
    pub replica: Replica,
    pub typed: [u32; CHARACTER_NUMBERS],
    pub count: usize,
}

// The same where the characters that were typed lie in an array of the caller's.
#[derive(Clone, Copy)]
pub struct PastedInto {
    pub answer: Answer,
    pub replica: Replica,
    pub count: usize,
}

// Reads the code points of a block into the fourth column.
fn read(block: &[u8], typed: &mut [u32])
    requires typed_len { length typed.old ≡ character_numbers }
    requires readable { Readable block.now }
    requires unwritten { Unwritten [] typed.old }
    ensures { (ns : List ℕ) → decoded block.now ≡ some ns → Unwritten ns typed.new }
{
    let mut at = 0;
    for i in 0..CHARACTERS {
        let head = decoding::decode(block, at);
        match head {
            Decoded::CodePoint { code_point, next } => {
                typed[CODE_POINTS + i] = code_point;
                at = next;
            }
            Decoded::End => return,
            Decoded::Malformed => return,
        }
    }
}

// An answer with the very replica, where nothing is typed.
fn untyped(replica: Replica, answer: Answer) -> PastedInto
    ensures { result ≡ record { answer = answer; replica = replica; count = 0 } }
{
    PastedInto {
        answer,
        replica,
        count: 0,
    }
}

// Types the first code points of the fourth column on a replica whose slots are cleared once. Where there is no place
// for one of them, the site and the counts of the replica are as they were.
fn type_points(
    replica: &mut Replica,
    typed: &mut [u32],
    point: usize,
    count: usize,
) -> Option<Typing>
    requires full { Full replica.old }
    requires typed_len { length typed.old ≡ character_numbers }
    requires unwritten { Unwritten (points_in count typed.old) typed.old }
    requires typed_value { every is_code_point (points_in count typed.old) ≡ true }
    requires spacious { Spacious (viewed replica.old) point count }
    ensures full_after { Full replica.new }
    ensures put_back { result ≡ None → (replica.new.site ≡ replica.old.site)
        × (replica.new.document.length ≡ replica.old.document.length)
        × (replica.new.document.waiting ≡ replica.old.document.waiting) }
    ensures value { AllTyped (meaning (viewed replica.old)) point (points_in count typed.old) typed.new
        (viewed replica.new) result }
{
    delivery::clear(&mut replica.document);
    typing::type_all(replica, typed, point, count)
}

// Types a block that the clock and the room are enough for, unless there is no place for one of its characters.
fn type_block(
    replica: Replica,
    point: usize,
    block: &[u8],
    count: usize,
    typed: &mut [u32],
) -> PastedInto
    requires pasteable { Pasteable (viewed replica) point block.now count }
    requires typed_value { typed.old ≡ typed_columns [] }
    ensures { pasted_as result typed.new ≡ pasted_by replica point block.now }
{
    read(block, typed);
    let mut after = replica;
    match type_points(&mut after, typed, point, count) {
        Some(at) => PastedInto {
            answer: Answer::Done {
                integrated: at.integrated,
                discarded: at.discarded,
            },
            replica: after,
            count,
        },
        None => {
            slots::clear(typed, 0, 0);
            untyped(replica, Answer::Refused(Refusal::Unplaceable))
        }
    }
}

// Internal step: pastes a block of text as `paste` does, with an array of the caller's for the characters that are
// typed: it is not copied then. The array has their length and zeros in it.
pub fn paste_into(replica: Replica, point: usize, block: &[u8], typed: &mut [u32]) -> PastedInto
    requires { typed.old ≡ typed_columns [] }
    ensures { pasted_as result typed.new ≡ pasted_by replica point block.now }
{
    match decoding::count(block) {
        None => untyped(replica, Answer::Refused(Refusal::NotUtf8)),
        Some(count) => {
            match block_judging::judge(&replica, point, count) {
                Judged::Answered(answer) => untyped(replica, answer),
                Judged::Enough => type_block(replica, point, block, count, typed),
            }
        }
    }
}

// Pastes a block of text at the insertion point, counted in visible characters. Bytes that are not UTF-8 are refused
// before the form is looked at, and a document that is too small for the block before a place is looked for.
// (Document 02, Req 11: pasting.)
pub fn paste(replica: Replica, point: usize, block: &[u8]) -> Pasted
    ensures { result ≡ pasted_by replica point block.now }
{
    let mut typed = [0u32; CHARACTER_NUMBERS];
    let pasted = paste_into(replica, point, block, &mut typed);
    let after = pasted.replica;
    let answer = pasted.answer;
    Pasted {
        answer,
        replica: after,
        typed,
        count: pasted.count,
    }
}
