// Receiving with an editor's cursor, which stands at an insertion point and keeps to what stands on its left: that is
// taken down as a key before the call, and the visible characters through it are counted afterwards. The steps read the
// replica's arrays as they lie, with a slot for each of the n characters. (Document 02, Req 02.)
#![tactic(auto)]

ghost use Rattle.std.specs.Prelude.{◌≡◌, true, false, List, suc, ◌+◌, ◌-◌, ◌≤◌, min, pos, negsuc, ◌≤ℤ◌, ◌<ℤ◌, length, take};
ghost use Rattle.std.proofs.Math.IntN.{sub_ℕ};
ghost use Rattle.woot.specs.declared.Character.{Character};
ghost use Rattle.answers.specs.Answers.{changes};
ghost use Rattle.woot.specs.Cursor.{visible_through, last_number, moved_by};
ghost use Rattle.woot.specs.Table.{keys};
ghost use Rattle.woot.specs.Memory.{identifier, toggle_counts, character_numbers, character_slots};
ghost use Rattle.woot.specs.Replicas.{received_at};
ghost use Rattle.index.specs.Keys.{AllSmall, place_in};
ghost use Rattle.memory.specs.Lent.{viewed, Full};
ghost use Rattle.cursor.specs.Bits.{shift_bits};
ghost use Rattle.cursor.specs.Steps.{anchor_of, answer_at, overruled, JudgedAt, receipt_in};

use answers::{Answer, Refusal};
use reception::Decision;
use woot::{CHARACTERS, Operation, ReceiptAt, Replica};

// What a cursor keeps to: the key of the visible character on its left, or of the begin mark. And whether there is such
// an insertion point at all. It stays a struct: `anchor_of` promises the key of a point that is beyond, too.
#[derive(Clone, Copy)]
pub struct Anchor {
    pub left: u32,
    pub beyond: bool,
}

// What a cursor at the insertion point keeps to.
fn anchored<'a>(ids: &'a [u32], toggles: &'a [u8], n: usize, point: usize) -> Anchor
    requires n_in_bounds { n ≤ length ids.now }
    requires n_in_bounds_2 { n ≤ length toggles.now }
    ensures { (cs : List Character) → keys cs ≡ take n ids.now
        → toggle_counts cs ≡ take n toggles.now → result ≡ anchor_of cs point }
{
    if point == 0 {
        return Anchor {
            left: 0,
            beyond: false,
        };
    }
    match visible::nth(toggles, n, point - 1) {
        Some(i) => Anchor {
            left: ids[i],
            beyond: false,
        },
        None => Anchor {
            left: 0,
            beyond: true,
        },
    }
}

// The answer with a cursor, of what is answered without one and of whether the cursor is beyond the visible characters.
fn answer_at(answer: Answer, beyond: bool) -> Answer
    ensures { result ≡ answer_at beyond answer }
{
    if !beyond {
        return answer;
    }
    match answer {
        Answer::Done {
            integrated: _,
            discarded: _,
        } => Answer::Refused(Refusal::Position),
        Answer::Deferred => Answer::Refused(Refusal::Position),
        Answer::Duplicate => Answer::Duplicate,
        Answer::Refused(q) => Answer::Refused(q.earlier(Refusal::Position)),
    }
}

// What is done with an operation once the cursor is known to be beyond the visible characters or not. Where it is,
// known, 2 and 3 stay and all else gives way to 4.
fn overrule(decision: Decision, beyond: bool) -> Decision
    ensures { result ≡ overruled beyond decision }
{
    if !beyond {
        return decision;
    }
    match decision {
        Decision::Answered(a) => Decision::Answered(answer_at(a, beyond)),
        Decision::Defer => Decision::Answered(Answer::Refused(Refusal::Position)),
        Decision::Place(_) => Decision::Answered(Answer::Refused(Refusal::Position)),
        Decision::Toggle(_) => Decision::Answered(Answer::Refused(Refusal::Position)),
    }
}

// What is to be done with an operation that is received with a cursor, and the key of what the cursor keeps to.
#[derive(Clone, Copy)]
pub struct Judgement {
    pub decision: Decision,
    pub left: u32,
}

// Internal step: what is to be done with an operation that a replica receives with a cursor at the insertion point.
pub fn judge_at(replica: &Replica, operation: Operation, point: usize) -> Judgement
    requires { Full replica.now }
    ensures { JudgedAt (viewed replica.now) operation point result }
{
    let judged = reception::decide(replica, operation);
    let document = &replica.document;
    let n = index::lesser(document.length, CHARACTERS);
    let anchor = anchored(&document.characters, &document.toggles, n, point);
    Judgement {
        decision: overrule(judged, anchor.beyond),
        left: anchor.left,
    }
}

// How many of the n characters stand from the top through the one with the key: none through the begin mark, and all of
// them where there is none such.
fn through(ids: &[u32], n: usize, key: u32) -> usize
    requires { n ≤ length ids.now }
    ensures { result ≡ min (place_in (take n ids.now) key) n }
{
    if key == 0 {
        return 0;
    }
    let held = &ids[..n];
    match index::find(held, key) {
        Some(i) => i + 1,
        None => n,
    }
}

// Internal step: how many visible characters stand from the top through the one with the key. The calls lend arrays of
// these sizes.
pub fn visible_through<'a>(ids: &'a [u32], toggles: &'a [u8], n: usize, key: u32) -> usize
    requires n_in_bounds { n ≤ length ids.now }
    requires n_in_bounds_2 { n ≤ length toggles.now }
    ensures value { (cs : List Character) → keys cs ≡ take n ids.now
        → toggle_counts cs ≡ take n toggles.now → AllSmall cs
        → result ≡ visible_through cs (identifier key) }
    ensures upper_bound { result ≤ n }
{
    let last = through(ids, n, key);
    let shown = visible::count(toggles, last);
    shown
}

// The difference of two counts, which may be below zero.
fn difference(after: usize, before: usize) -> i32
    requires after_le_character_slots { after ≤ character_slots }
    requires before_le_character_slots { before ≤ character_slots }
    ensures { result ≡ sub_ℕ after before }
{
    after as i32 - before as i32
}

// How far a cursor moves that stood at the insertion point and kept to the identifier with a key, among the characters
// as they are now. `receive_at` has seen that the point was among the visible characters.
fn shift<'a>(ids: &'a [u32], toggles: &'a [u8], n: usize, left: u32, point: usize) -> i32
    requires n_le_character_slots { n ≤ character_slots }
    requires n_in_bounds { n ≤ length ids.now }
    requires n_in_bounds_2 { n ≤ length toggles.now }
    requires point_le_character_slots { point ≤ character_slots }
    ensures { (cs : List Character) → keys cs ≡ take n ids.now
        → toggle_counts cs ≡ take n toggles.now → AllSmall cs
        → result ≡ sub_ℕ (visible_through cs (identifier left)) point }
{
    difference(visible_through(ids, toggles, n, left), point)
}

// How far it moves with an answer: not at all where nothing is changed.
fn shift_with<'a>(
    ids: &'a [u32],
    toggles: &'a [u8],
    n: usize,
    answer: Answer,
    left: u32,
    point: usize,
) -> i32
    requires ids_len { length ids.now ≡ character_numbers }
    requires toggles_len { length toggles.now ≡ character_slots }
    requires n_le_character_slots { changes answer ≡ true → (n ≤ character_slots) × (point ≤ character_slots) }
    ensures value { changes answer ≡ false → result ≡ pos 0 }
    ensures value_2 { changes answer ≡ true → (cs : List Character) → keys cs ≡ take n ids.now
        → toggle_counts cs ≡ take n toggles.now → AllSmall cs
        → result ≡ sub_ℕ (visible_through cs (identifier left)) point }
{
    if !answer.is_change() {
        return 0;
    }
    shift(ids, toggles, n, left, point)
}

// What receiving with a cursor answers, and how far the cursor moves.
#[derive(Clone, Copy)]
pub struct ReceivedAt {
    pub answer: Answer,
    pub shift: i32,
}

// Internal step: carries out on a replica what was judged of an operation with the cursor at the insertion point. The
// calls have judged on the same replica.
pub fn carry_at(
    replica: &mut Replica,
    operation: Operation,
    point: usize,
    judged: Judgement,
) -> ReceivedAt
    requires full { Full replica.old }
    requires judged_at { JudgedAt (viewed replica.old) operation point judged }
    ensures full_after { Full replica.new }
    ensures value { receipt_in replica.new result ≡ received_at replica.old operation point }
{
    let decision = judged.decision;
    let counts = execution::carry_out(replica, operation, decision);
    let answer = execution::answer(decision, counts);
    let document = &replica.document;
    let shift = shift_with(
        &document.characters,
        &document.toggles,
        document.length,
        answer,
        judged.left,
        point,
    );
    ReceivedAt { answer, shift }
}

// Receives an operation with the cursor at an insertion point, and says how far the cursor moves.
pub fn receive_at(replica: Replica, operation: Operation, point: usize) -> ReceiptAt
    ensures { result ≡ received_at replica operation point }
{
    let mut after = replica;
    let judged = judge_at(&after, operation, point);
    let received = carry_at(&mut after, operation, point, judged);
    ReceiptAt {
        answer: received.answer,
        replica: after,
        shift: received.shift,
    }
}

// How many steps a shift goes up, where it is not below zero.
fn up(shift: i32) -> usize
    requires { pos 0 ≤ℤ shift }
    ensures { pos result ≡ shift }
{
    shift as usize
}

// How many steps beyond -1 a shift goes down, where it is below zero.
fn down(shift: i32) -> usize
    requires { shift <ℤ pos 0 }
    ensures { negsuc result ≡ shift }
{
    (-1 - shift) as usize
}

// The low sixteen bits of a shift, in two's complement.
pub fn bits(shift: i32) -> usize
    ensures { result ≡ shift_bits shift }
{
    if shift < 0 {
        return 65535 - down(shift) % 65536;
    }
    up(shift) % 65536
}

// An insertion point so many steps higher, or the largest number.
fn raised(point: usize, steps: usize) -> usize
    ensures { result ≡ min (point + steps) last_number }
{
    if 18446744073709551615 - steps < point {
        return 18446744073709551615;
    }
    point + steps
}

// An insertion point so many steps lower and one more, or 0.
fn lowered(point: usize, steps: usize) -> usize
    ensures { result ≡ point - suc steps }
{
    if point <= steps {
        return 0;
    }
    point - steps - 1
}

// An insertion point moved by a shift: 0 where the sum is below 0, and the largest number where it is above that.
pub fn moved(point: usize, shift: i32) -> usize
    ensures { result ≡ moved_by point shift }
{
    if shift < 0 {
        return lowered(point, down(shift));
    }
    raised(point, up(shift))
}
