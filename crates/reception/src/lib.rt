// What is decided of a received operation, on a replica that is lent, before it is changed: the answer that changes
// nothing, or what is to be done and where. The caller then carries it out.
#![tactic(auto)]

ghost use Rattle.std.specs.Prelude.{◌≡◌, true, ◌≤◌, length, take};
ghost use Rattle.woot.specs.declared.Operation.TheVariants.{Insert as ofInsert, Toggle as ofToggle};
ghost use Rattle.woot.specs.Operations.{sender};
ghost use Rattle.woot.specs.Ranges.{insert_in_range, toggle_in_range};
ghost use Rattle.memory.specs.Lent.{viewed, Full};
ghost use Rattle.well_formed.specs.Examined.{Examined};
ghost use Rattle.reception.specs.Decisions.{full_with, lacking_in, placed_in, absent_in, Judged};

use answers::{Answer, Refusal};
use holder::Seen;
use index::table;
use integration::Placement;
use pending::counts;
use woot::{
    CHARACTERS, CODE_POINTS, FIRST_KEYS, Insert, NEXT_KEYS, Operation, PENDING, PENDING_NUMBERS,
    PREVIOUS_KEYS, Replica, SECOND_KEYS, Toggle, VALUES,
};

// What is to be done with a received operation. It stays an enum of four: one of them answers, and each of the others
// says how it is carried out.
#[derive(Clone, Copy)]
pub enum Decision {
    // The answer that changes nothing: known, or a refusal.
    Answered(Answer),
    // It lacks something, and is put off.
    Defer,
    // It is an insert that goes in after the first so many characters.
    Place(usize),
    // It is a toggle whose target stands in this slot.
    Toggle(usize),
}

// Who sends an operation.
fn sender(operation: Operation) -> u32
    ensures { result ≡ sender operation }
{
    match operation {
        Operation::Insert(i) => i.id.site as u32,
        Operation::Toggle(t) => t.sender as u32,
    }
}

// Whether an operation is an insert, and n characters and the inserts among w pending operations fill the document.
fn is_full(n: usize, own: &[u32], w: usize, operation: Operation) -> bool
    requires { w ≤ length own.now }
    ensures { result ≡ full_with n (take w own.now) operation }
{
    match operation {
        Operation::Insert(_) => counts::document_full(n, own, w),
        Operation::Toggle(_) => false,
    }
}

// An operation that lacks something is put off, unless its sender has its full share, or an insert has no room.
fn lacking<'a>(
    n: usize,
    own: &'a [u32],
    values: &'a [u32],
    w: usize,
    operation: Operation,
) -> Decision
    requires w_in_bounds { w ≤ length own.now }
    requires w_in_bounds_2 { w ≤ length values.now }
    ensures { result
        ≡ lacking_in n (take w own.now) (take w values.now) operation }
{
    if counts::sender_full(own, values, w, sender(operation)) {
        return Decision::Answered(Answer::Refused(Refusal::SenderFull));
    }
    if is_full(n, own, w, operation) {
        return Decision::Answered(Answer::Refused(Refusal::DocumentFull));
    }
    Decision::Defer
}

// An insert that is new goes by its place, which is looked at before the room.
fn placed<'a>(
    n: usize,
    own: &'a [u32],
    values: &'a [u32],
    w: usize,
    insert: Insert,
    placement: Placement,
) -> Decision
    requires w_in_bounds { w ≤ length own.now }
    requires w_in_bounds_2 { w ≤ length values.now }
    ensures { result
        ≡ placed_in n (take w own.now) (take w values.now) insert placement }
{
    match placement {
        Placement::Missing => lacking(n, own, values, w, Operation::Insert(insert)),
        Placement::Crossed => Decision::Answered(Answer::Refused(Refusal::Crossed)),
        Placement::Unplaceable => Decision::Answered(Answer::Refused(Refusal::Unplaceable)),
        Placement::Below(k) => {
            if counts::document_full(n, own, w) {
                return Decision::Answered(Answer::Refused(Refusal::DocumentFull));
            }
            Decision::Place(k)
        }
    }
}

// A toggle whose target no character is lacks it, unless an equal one is pending.
fn absent<'a>(
    n: usize,
    own: &'a [u32],
    first: &'a [u32],
    values: &'a [u32],
    w: usize,
    toggle: Toggle,
) -> Decision
    requires w_in_bounds { w ≤ length own.now }
    requires w_in_bounds_2 { w ≤ length first.now }
    requires w_in_bounds_3 { w ≤ length values.now }
    ensures { result
        ≡ absent_in n (take w own.now) (take w first.now) (take w values.now)
        toggle }
{
    if holder::is_pending(own, first, values, w, toggle) {
        return Decision::Answered(Answer::Duplicate);
    }
    lacking(n, own, values, w, Operation::Toggle(toggle))
}

// Decides on an insert: what it is to the replica is looked at before its place.
fn decide_insert(replica: &Replica, insert: Insert) -> Decision
    requires full { Full replica.now }
    requires examined { Examined
        (viewed replica.now) }
    requires insert_value { insert_in_range insert ≡ true }
    ensures { Judged (viewed replica.now) (ofInsert insert) result }
{
    let document = &replica.document;
    match holder::seen_by(replica, insert) {
        Seen::New => {
            let ids = &document.characters[0..CHARACTERS];
            let previous = &document.characters[PREVIOUS_KEYS..NEXT_KEYS];
            let next = &document.characters[NEXT_KEYS..CODE_POINTS];
            let placement = integration::find_place(
                &document.table,
                ids,
                previous,
                next,
                document.length,
                insert,
            );
            let own = &document.pending[0..PENDING];
            let values = &document.pending[VALUES..PENDING_NUMBERS];
            placed(
                document.length,
                own,
                values,
                document.waiting,
                insert,
                placement,
            )
        }
        Seen::Same => Decision::Answered(Answer::Duplicate),
        Seen::Other => Decision::Answered(Answer::Refused(Refusal::Conflict)),
    }
}

// Decides on a toggle: it is known where its target has as many toggles.
fn decide_toggle(replica: &Replica, toggle: Toggle) -> Decision
    requires full { Full replica.now }
    requires examined { Examined
        (viewed replica.now) }
    requires toggle_value { toggle_in_range toggle ≡ true }
    ensures { Judged (viewed replica.now) (ofToggle toggle) result }
{
    let document = &replica.document;
    let target = toggle.target;
    let ids = &document.characters[0..CHARACTERS];
    match table::find_among(&document.table, ids, document.length, index::key(target)) {
        Some(k) => {
            if toggle.toggles <= document.toggles[k] {
                return Decision::Answered(Answer::Duplicate);
            }
            Decision::Toggle(k)
        }
        None => {
            let own = &document.pending[0..PENDING];
            let first = &document.pending[FIRST_KEYS..SECOND_KEYS];
            let values = &document.pending[VALUES..PENDING_NUMBERS];
            absent(
                document.length,
                own,
                first,
                values,
                document.waiting,
                toggle,
            )
        }
    }
}

// Internal step: what is to be done with a received operation: its ranges are looked at, then the form of the replica
// and then what the operation is to it.
pub fn decide(replica: &Replica, operation: Operation) -> Decision
    requires { Full replica.now }
    ensures { Judged (viewed replica.now) operation result }
{
    if !ranges::in_range(operation) {
        return Decision::Answered(Answer::Refused(Refusal::Range));
    }
    if !well_formed::is_well_formed(replica) {
        return Decision::Answered(Answer::Refused(Refusal::Form));
    }
    match operation {
        Operation::Insert(insert) => decide_insert(replica, insert),
        Operation::Toggle(toggle) => decide_toggle(replica, toggle),
    }
}
