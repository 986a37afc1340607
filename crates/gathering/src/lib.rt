// A heap of operations as lines, in no useful order: read into lent arrays, inserts apart from toggles. The public
// function is an internal step of `building`. (Document 02, Req 08.)
#![tactic(auto)]

ghost use Rattle.std.specs.Prelude.{◌≡◌, true, List, [], ◌∷◌, ◌++◌, ◌+◌, ◌^◌, ◌<◌, length, take};
ghost use Rattle.woot.specs.Memory.{character_slots, character_numbers};
ghost use Rattle.woot.specs.Ranges.{in_range};
ghost use Rattle.heap.specs.Format.{line_said, heap_said};
ghost use Rattle.heap.specs.Columns.{InsertsIn, toggle_numbers, TogglesIn};
ghost use Rattle.gathering.specs.Gathering.{ungathered, gathered_of, gathered, Held, counted_one, and_one, and_line};

use answers::Refusal;
use codec::INSERT;
use heap::STAMPS;
use woot::{CHARACTERS, Insert, Operation, Toggle};

// Whether each line of a heap has the layout of an operation; if so, whether each is in range, and how many inserts
// there are and how many toggles, which may be more than the arrays have slots.
// It is no Result: a line out of range is counted on, and a fault of the layout after it comes first.
#[derive(Clone, Copy)]
pub struct Gathered {
    pub laid_out: bool,
    pub in_range: bool,
    pub inserts: usize,
    pub toggles: usize,
}

// Puts an insert behind the first n, where there is a slot.
fn keep_insert(inserts: &mut [u32], n: usize, insert: Insert)
    requires { length inserts.old ≡ character_numbers }
    ensures { (is : List Insert) → InsertsIn inserts.old (take character_slots is) → n ≡ length is
        → InsertsIn inserts.new (take character_slots (is ++ insert ∷ [])) }
{
    if CHARACTERS <= n {
        return;
    }
    let id = insert.id;
    let previous = insert.previous;
    let next = insert.next;
    heap::put_at(
        inserts,
        n,
        index::key(id),
        index::key(previous),
        index::key(next),
        insert.code_point,
    );
}

// Puts a toggle behind the first n, where there is a slot.
fn keep_toggle(toggles: &mut [u32], n: usize, toggle: Toggle)
    requires { length toggles.old ≡ toggle_numbers }
    ensures { (ts : List Toggle) → TogglesIn toggles.old (take character_slots ts) → n ≡ length ts
        → TogglesIn toggles.new (take character_slots (ts ++ toggle ∷ [])) }
{
    if CHARACTERS <= n {
        return;
    }
    let target = toggle.target;
    toggles[n] = index::key(target);
    toggles[STAMPS + n] = memory::stamp(toggle);
}

// A heap with a line that lacks the layout.
#[tactic(auto, unfolding(crate::specs::Gathering::ungathered))]
fn ungathered() -> Gathered
    ensures { result ≡ ungathered }
{
    Gathered {
        laid_out: false,
        in_range: false,
        inserts: 0,
        toggles: 0,
    }
}

// Counts one line more that has the layout, an insert's or a toggle's, by whether it is in range.
#[tactic(auto, unfolding(crate::specs::Gathering::counted_one))]
fn count(at: Gathered, insert: bool, in_range: bool) -> Gathered
    requires inserts_bound { at.inserts + 1 < 2 ^ 64 }
    requires toggles_bound { at.toggles + 1 < 2 ^ 64 }
    ensures { result ≡ counted_one at insert in_range }
{
    let passes = index::both(at.in_range, in_range);
    if insert {
        return Gathered {
            laid_out: true,
            in_range: passes,
            inserts: at.inserts + 1,
            toggles: at.toggles,
        };
    }
    Gathered {
        laid_out: true,
        in_range: passes,
        inserts: at.inserts,
        toggles: at.toggles + 1,
    }
}

// Keeps an operation that is in range.
fn keep(inserts: &mut [u32], toggles: &mut [u32], at: Gathered, operation: Operation) -> Gathered
    requires inserts_len { length inserts.old ≡ character_numbers }
    requires toggles_len { length toggles.old ≡ toggle_numbers }
    requires inserts_bound { at.inserts + 1 < 2 ^ 64 }
    requires toggles_bound { at.toggles + 1 < 2 ^ 64 }
    requires operation_value { in_range operation ≡ true }
    ensures value { result ≡ and_one at operation }
    ensures held { (os : List Operation) → at ≡ gathered_of os → Held inserts.old toggles.old os
        → Held inserts.new toggles.new (os ++ operation ∷ []) }
{
    match operation {
        Operation::Insert(insert) => {
            keep_insert(inserts, at.inserts, insert);
            count(at, true, true)
        }
        Operation::Toggle(toggle) => {
            keep_toggle(toggles, at.toggles, toggle);
            count(at, false, true)
        }
    }
}

// Reads one line more. One that is out of range is counted by its letter.
fn gather_line(line: &[u8], inserts: &mut [u32], toggles: &mut [u32], at: Gathered) -> Gathered
    requires inserts_len { length inserts.old ≡ character_numbers }
    requires toggles_len { length toggles.old ≡ toggle_numbers }
    requires inserts_bound { at.inserts + 1 < 2 ^ 64 }
    requires toggles_bound { at.toggles + 1 < 2 ^ 64 }
    ensures value { result ≡ and_line at line.now }
    ensures held { result.in_range ≡ true → (os : List Operation) → at ≡ gathered_of os
        → Held inserts.old toggles.old os
        → Held inserts.new toggles.new (os ++ line_said line.now ∷ []) }
{
    let read = codec::read_line(line);
    match read {
        Ok(operation) => keep(inserts, toggles, at, operation),
        Err(refusal) => match refusal {
            Refusal::Range => count(at, codec::first_byte(line) == INSERT, false),
            _ => ungathered(),
        },
    }
}

// Internal step: reads a heap, however long it is: each line once, inserts and toggles into their arrays as far as
// these have slots. A line that is out of range, or has no slot left, does not end the reading: a fault of the layout
// after it comes first. The calls lend arrays of these sizes.
pub fn gather(bytes: &[u8], inserts: &mut [u32], toggles: &mut [u32]) -> Gathered
    requires inserts_len { length inserts.old ≡ character_numbers }
    requires toggles_len { length toggles.old ≡ toggle_numbers }
    ensures value { result ≡ gathered bytes.now }
    ensures held { result.in_range ≡ true
        → Held inserts.new toggles.new (heap_said bytes.now) }
{
    let mut at = Gathered {
        laid_out: true,
        in_range: true,
        inserts: 0,
        toggles: 0,
    };
    // It stays a while: `lines` cuts one line off at a time, and no index is counted.
    let mut left = bytes;
    while 0 < left.len() {
        let line = lines::first_line(left);
        let next = gather_line(line, inserts, toggles, at);
        if !next.laid_out {
            return ungathered();
        }
        at = next;
        let rest = lines::rest(left);
        left = rest;
    }
    at
}
