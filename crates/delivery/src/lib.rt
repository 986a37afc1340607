// Carrying out operations on a document that is lent: an insert is put in, and then what it released, one by one, until
// no pending operation is executable; a character is toggled; an operation is put off. Each array is edited where it
// lies, and what is not in use is cleared before.
#![tactic(auto)]

ghost use Rattle.std.specs.Prelude.{◌≡◌, Some, List, ◌++◌, ◌∷◌, [], ℕ, ◌+◌, ◌≤◌, ◌<◌, length, take};
ghost use Rattle.index.specs.Keys.{AllSmall, found};
ghost use Rattle.index.specs.Tabled.{Tabled};
ghost use Rattle.memory.specs.Lent.{view, FullDocument};
ghost use Rattle.memory.specs.Columns.{characters_in, operations_in, document_of};
ghost use Rattle.woot.specs.declared.Character.{Character};
ghost use Rattle.woot.specs.declared.Operation.{Operation};
ghost use Rattle.woot.specs.Memory.{previous_keys, next_keys, character_numbers, character_slots, first_column, key_column};
ghost use Rattle.woot.specs.Memory.{next_column, pending_numbers, pending_slots, previous_column, second_column};
ghost use Rattle.pending.specs.Ready.{ready_in};
ghost use Rattle.integration.specs.Placements.{placement_of};
ghost use Rattle.woot.specs.Operations.{character};
ghost use Rattle.woot.specs.Placing.{insert_at, integrate_insert, integrate_toggle};
ghost use Rattle.woot.specs.Table.{key, keys};
ghost use Rattle.delivery.specs.Work.{SameLengths, with_table, Lent, Swept, work_in, Workable, PlacedAs, Insertable};
ghost use Rattle.delivery.specs.Work.{Placed, Targeted};
ghost use Rattle.delivery.specs.Work.{due_in, stepped_in, finished_in, finished};
ghost use Rattle.delivery.specs.Steps.{toggled_at, place_of};

use index::table;
use integration::Placement;
use pending::ready;
use woot::{
    CHARACTERS, CODE_POINTS, Document, FIRST_KEYS, Insert, NEXT_KEYS, Operation, PREVIOUS_KEYS,
    SECOND_KEYS, Table, Toggle, VALUES,
};

// How many operations have been carried out, and how many discarded.
#[derive(Clone, Copy)]
pub struct Counts {
    pub integrated: usize,
    pub discarded: usize,
}

// Internal step: clears the slots that are not in use. The table stays as it is: whoever puts a character in makes it
// anew. The calls have checked the replica.
pub fn sweep(document: &mut Document)
    requires characters_len { length document.old.characters ≡ character_numbers }
    requires toggles_len { length document.old.toggles ≡ character_slots }
    requires pending_len { length document.old.pending ≡ pending_numbers }
    requires length_le_character_slots { document.old.length ≤ character_slots }
    requires waiting_le_pending_slots { document.old.waiting ≤ pending_slots }
    ensures lengths { SameLengths document.new document.old }
    ensures length_after { document.new.length ≡ document.old.length }
    ensures waiting_after { document.new.waiting ≡ document.old.waiting }
    ensures full_after { FullDocument document.old → FullDocument document.new }
    ensures table_after { document.new.table ≡ document.old.table }
    ensures any_table { (hs ls : List ℕ) → Lent (with_table document.old hs ls)
        → Swept (with_table document.new hs ls) (characters_in (with_table document.old hs ls))
        (operations_in (with_table document.old hs ls)) }
    ensures value { Lent (view document.old)
        → Swept (view document.new) (characters_in (view document.old)) (operations_in (view document.old)) }
{
    characters::clear(
        &mut document.characters,
        &mut document.toggles,
        document.length,
    );
    pending_slots::clear(&mut document.pending, document.waiting);
}

// Internal step: clears what is not in use and makes the table the one of the keys, so that the arrays are those that
// the rules' lists are stored in. The calls have checked the replica.
pub fn clear(document: &mut Document)
    requires full { FullDocument document.old }
    requires lent { Lent (view document.old) }
    ensures full_after { FullDocument document.new }
    ensures value { view document.new
        ≡ document_of (characters_in (view document.old)) (operations_in (view document.old)) }
{
    sweep(document);
    table::renew(&document.characters, document.length, &mut document.table);
}

// Internal step: where an insert goes among the first n characters. The calls' table finds the keys.
// It takes arrays and no document: those of characters that are built anew are read here too, before there is one.
pub fn find_place<'a>(
    table: &'a Table,
    characters: &'a [u32],
    n: usize,
    insert: Insert,
) -> Placement
    requires n_le_character_slots { n ≤ character_slots }
    requires characters_len { length characters.now ≡ character_numbers }
    requires tabled { Tabled table.now (take n (key_column characters.now)) }
    ensures { (cs : List Character)
        → take n (key_column characters.now) ≡ keys cs
        → take n (previous_column characters.now) ≡ previous_keys cs
        → take n (next_column characters.now) ≡ next_keys cs → AllSmall cs
        → result ≡ placement_of cs insert }
{
    integration::find_place(
        table,
        &characters[..CHARACTERS],
        &characters[PREVIOUS_KEYS..NEXT_KEYS],
        &characters[NEXT_KEYS..CODE_POINTS],
        n,
        insert,
    )
}

// The index of the earliest pending operation that is executable.
fn due(document: &Document) -> Option<usize>
    requires characters_len { length document.now.characters ≡ character_numbers }
    requires pending_len { length document.now.pending ≡ pending_numbers }
    requires length_le_character_slots { document.now.length ≤ character_slots }
    requires waiting_le_pending_slots { document.now.waiting ≤ pending_slots }
    requires tabled { Tabled (view document.now).table (take document.now.length (key_column document.now.characters)) }
    ensures { result
        ≡ ready_in (take document.now.length (key_column document.now.characters))
        (take document.now.waiting (first_column document.now.pending))
        (take document.now.waiting (second_column document.now.pending)) }
{
    ready::ready_among(
        &document.table,
        &document.characters[..CHARACTERS],
        document.length,
        &document.pending[FIRST_KEYS..SECOND_KEYS],
        &document.pending[SECOND_KEYS..VALUES],
        document.waiting,
    )
}

// Internal step: gives the target of a toggle the larger count, where it is among the first n. The calls' table finds
// the keys.
// It takes arrays and no document, for the same reason.
pub fn carry_toggle<'a>(
    table: &'a Table,
    characters: &'a [u32],
    toggles: &mut [u8],
    n: usize,
    toggle: Toggle,
)
    requires n_le_character_slots { n ≤ character_slots }
    requires characters_len { length characters.now ≡ character_numbers }
    requires n_in_bounds { n ≤ length toggles.old }
    requires tabled { Tabled table.now (take n (key_column characters.now)) }
    ensures { toggles.new
        ≡ toggled_at (found (key toggle.target) (take n (key_column characters.now)))
        toggle.toggles toggles.old }
{
    let target = toggle.target;
    match table::find_among(table, &characters[..CHARACTERS], n, index::key(target)) {
        Some(k) => {
            characters::toggle(toggles, k, toggle.toggles);
            return;
        }
        None => {
            return;
        }
    }
}

// Where an insert goes in, if there is a place for it.
pub fn place_of(placement: Placement) -> Option<usize>
    ensures { result ≡ place_of placement }
{
    match placement {
        Placement::Below(k) => Some(k),
        Placement::Missing => None,
        Placement::Crossed => None,
        Placement::Unplaceable => None,
    }
}

// Puts the character of an insert in after the first k. The slots behind them are clear.
fn place(document: &mut Document, k: usize, insert: Insert)
    requires full { FullDocument document.old }
    requires k_le_length { k ≤ document.old.length }
    requires length_lt_character_slots { document.old.length < character_slots }
    ensures full_after { FullDocument document.new }
    ensures value { (cs : List Character) (ps : List Operation)
        → Swept (view document.old) cs ps
        → view document.new ≡ document_of (insert_at k (character insert) cs) ps }
{
    characters::put_in(
        &mut document.characters,
        &mut document.toggles,
        &mut document.table,
        document.length,
        k,
        insert,
    );
    document.length += 1;
}

// Takes out the pending operation that is due, and carries it out or discards it.
fn step(document: &mut Document, counts: Counts, j: usize) -> Counts
    requires full { FullDocument document.old }
    requires workable { Workable (work_in document.old counts) }
    requires j_value { due_in (work_in document.old counts) ≡ Some j }
    ensures full_after { FullDocument document.new }
    ensures value { work_in document.new result ≡ stepped_in (work_in document.old counts) }
{
    let n = document.length;
    let operation = pending_slots::operation_at(&document.pending, j);
    pending_slots::remove(&mut document.pending, document.waiting, j);
    document.waiting -= 1;
    match operation {
        Operation::Insert(i) => {
            let placement = find_place(&document.table, &document.characters, n, i);
            match place_of(placement) {
                Some(k) => {
                    place(document, k, i);
                    Counts {
                        integrated: counts.integrated + 1,
                        discarded: counts.discarded,
                    }
                }
                None => Counts {
                    integrated: counts.integrated,
                    discarded: counts.discarded + 1,
                },
            }
        }
        Operation::Toggle(t) => {
            carry_toggle(
                &document.table,
                &document.characters,
                &mut document.toggles,
                n,
                t,
            );
            Counts {
                integrated: counts.integrated + 1,
                discarded: counts.discarded,
            }
        }
    }
}

// Carries out or discards pending operations, the earliest that is executable first, until none is.
fn drain(document: &mut Document, counts: Counts) -> Counts
    requires full { FullDocument document.old }
    requires workable { Workable (work_in document.old counts) }
    ensures full_after { FullDocument document.new }
    ensures value { work_in document.new result ≡ finished_in (work_in document.old counts) }
{
    let mut done = counts;
    // No count of the steps is known before: each may make others executable.
    while let Some(j) = due(document) {
        done = step(document, done, j);
    }
    done
}

// Internal step: puts in an insert after the first k characters, and carries out all that it released. The calls have
// found the place, and the slots that are not in use are clear.
pub fn put_in(document: &mut Document, k: usize, insert: Insert) -> Counts
    requires full { FullDocument document.old }
    requires insertable { Insertable (view document.old) insert k }
    ensures full_after { FullDocument document.new }
    ensures value { (cs : List Character) (ps : List Operation)
        → PlacedAs (view document.old) insert k cs ps
        → work_in document.new result ≡ finished (integrate_insert cs insert) ps 1 0 }
{
    place(document, k, insert);
    drain(
        document,
        Counts {
            integrated: 1,
            discarded: 0,
        },
    )
}

// Internal step: the same where what is not in use may hold anything. The calls have checked the replica.
pub fn integrate(document: &mut Document, k: usize, insert: Insert) -> Counts
    requires full { FullDocument document.old }
    requires placed { Placed (view document.old) insert k }
    ensures full_after { FullDocument document.new }
    ensures value { work_in document.new result
        ≡ finished (integrate_insert (characters_in (view document.old)) insert)
        (operations_in (view document.old)) 1 0 }
{
    sweep(document);
    put_in(document, k, insert)
}

// Internal step: gives the character in a slot the larger count of toggles. The calls have checked the replica and
// found the target there.
pub fn toggle(document: &mut Document, k: usize, toggle: Toggle)
    requires full { FullDocument document.old }
    requires targeted { Targeted (view document.old) toggle k }
    ensures full_after { FullDocument document.new }
    ensures value { view document.new
        ≡ document_of (integrate_toggle (characters_in (view document.old)) toggle)
        (operations_in (view document.old)) }
{
    clear(document);
    characters::toggle(&mut document.toggles, k, toggle.toggles);
}

// Internal step: puts an operation behind the pending ones. The calls have checked the replica and that there is a
// slot.
pub fn defer(document: &mut Document, operation: Operation)
    requires full { FullDocument document.old }
    requires lent { Lent (view document.old) }
    requires waiting_lt_pending_slots { document.old.waiting < pending_slots }
    ensures full_after { FullDocument document.new }
    ensures value { view document.new
        ≡ document_of (characters_in (view document.old)) (operations_in (view document.old) ++ operation ∷ []) }
{
    clear(document);
    pending_slots::push(&mut document.pending, document.waiting, operation);
    document.waiting += 1;
}
