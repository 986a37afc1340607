// Who has an identifier, whether a toggle is pending, and what a received insert is beside the one that has its
// identifier: numbers are compared, and nothing is decoded.
#![tactic(auto)]

ghost use Rattle.std.specs.Prelude.{◌≡◌, true, ◌*◌, ◌≤◌, ◌<◌, length, take};
ghost use Rattle.woot.specs.declared.Operation.TheVariants.{Toggle as ofToggle};
ghost use Rattle.woot.specs.Operations.{origin, same_insert};
ghost use Rattle.woot.specs.Ranges.{insert_in_range};
ghost use Rattle.woot.specs.Table.{key};
ghost use Rattle.woot.specs.Memory.{character_of, value_of, column};
ghost use Rattle.index.specs.Tabled.{Tabled};
ghost use Rattle.pending.specs.Counts.{has_toggle};
ghost use Rattle.memory.specs.Columns.{meaning};
ghost use Rattle.memory.specs.Lent.{viewed, Full};
ghost use Rattle.well_formed.specs.Examined.{Examined};
ghost use Rattle.holder.specs.Holder.{holder_in, insert_in, compared_to, seen_of};

use index::table;
use pending::counts;
use woot::{CHARACTERS, Insert, PENDING, Replica, Table, Toggle};

// Who has an identifier: the character or the pending insert in a slot, or nobody.
#[derive(Clone, Copy)]
pub enum Holder {
    Character(usize),
    Pending(usize),
    Nobody,
}

// What a received insert is beside those that the replica has: new, the same as one, or another with its identifier.
#[derive(Clone, Copy)]
pub enum Seen {
    New,
    Same,
    Other,
}

// Internal step: who has the key, among the keys of n characters and of w pending operations. The calls have a table
// of the characters' keys.
pub fn holder_of<'a>(
    table: &'a Table,
    ids: &'a [u32],
    n: usize,
    own: &'a [u32],
    w: usize,
    key: u32,
) -> Holder
    requires n_in_bounds { n ≤ length ids.now }
    requires w_in_bounds { w ≤ length own.now }
    requires tabled { Tabled table.now (take n ids.now) }
    ensures { result ≡ holder_in (take n ids.now) (take w own.now) key }
{
    match table::find_among(table, ids, n, key) {
        Some(k) => Holder::Character(k),
        None => match index::find(&own[..w], key) {
            Some(j) => Holder::Pending(j),
            None => Holder::Nobody,
        },
    }
}

// Internal step: whether an equal toggle is among w pending operations. The calls lend arrays of these sizes.
pub fn is_pending<'a>(
    own: &'a [u32],
    first: &'a [u32],
    values: &'a [u32],
    w: usize,
    toggle: Toggle,
) -> bool
    requires w_in_bounds { w ≤ length own.now }
    requires w_in_bounds_2 { w ≤ length first.now }
    requires w_in_bounds_3 { w ≤ length values.now }
    ensures { result
        ≡ has_toggle (key toggle.target) (value_of (ofToggle toggle))
        (take w own.now) (take w first.now) (take w values.now) }
{
    let target = toggle.target;
    counts::has_toggle(
        &own[..w],
        &first[..w],
        &values[..w],
        index::key(target),
        memory::stamp(toggle),
    )
}

// Whether an insert has these numbers.
fn same_insert(id: u32, previous: u32, next: u32, code_point: u32, insert: Insert) -> bool
    ensures { result ≡ same_insert insert (origin (character_of id previous next code_point 0)) }
{
    let own = insert.id;
    if index::key(own) != id {
        return false;
    }
    if insert.code_point != code_point {
        return false;
    }
    let above = insert.previous;
    if index::key(above) != previous {
        return false;
    }
    let below = insert.next;
    index::key(below) == next
}

// Internal step: what an insert is beside the one in a slot, which has its identifier. The numbers are those of the
// characters, or those of the pending operations: four columns of so many slots. The calls have found the slot.
pub fn compared(numbers: &[u32], slots: usize, k: usize, insert: Insert) -> Seen
    requires numbers_len { length numbers.now ≡ 4 * slots }
    requires k_lt_slots { k < slots }
    ensures { result
        ≡ compared_to insert (insert_in (column slots 0 numbers.now) (column slots 1 numbers.now)
        (column slots 2 numbers.now) (column slots 3 numbers.now) k) }
{
    let previous = numbers[slots + k];
    let next = numbers[2 * slots + k];
    let value = numbers[3 * slots + k];
    if same_insert(numbers[k], previous, next, value, insert) {
        return Seen::Same;
    }
    Seen::Other
}

// Internal step: what a received insert is to the replica: the one that has its identifier decides. The calls have
// checked the form and the ranges.
pub fn seen_by(replica: &Replica, insert: Insert) -> Seen
    requires full { Full replica.now }
    requires examined { Examined
        (viewed replica.now) }
    requires insert_value { insert_in_range insert ≡ true }
    ensures { result
        ≡ seen_of (meaning (viewed replica.now)) insert }
{
    let document = &replica.document;
    let id = insert.id;
    let ids = &document.characters[0..CHARACTERS];
    let own = &document.pending[0..PENDING];
    match holder_of(
        &document.table,
        ids,
        document.length,
        own,
        document.waiting,
        index::key(id),
    ) {
        Holder::Character(k) => compared(&document.characters, CHARACTERS, k, insert),
        Holder::Pending(j) => compared(&document.pending, PENDING, j, insert),
        Holder::Nobody => Seen::New,
    }
}
