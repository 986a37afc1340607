// Loading for use: whether some sequence of received operations, begun from an empty replica, leaves the rows of one.
// (Document 02, Req 07.) Two tests say it, both on the places of the rows' neighbours: those of pairs and of cycles.
#![tactic(auto)]

ghost use Rattle.std.specs.Prelude.{◌≡◌, List, ◌≤◌, length, take};
ghost use Rattle.woot.specs.declared.Character.{Character};
ghost use Rattle.bulk.specs.Loading.{loadable};
ghost use Rattle.woot.specs.Memory.{previous_keys, next_keys, character_numbers, character_slots, stored};
ghost use Rattle.woot.specs.Memory.{key_column, previous_column, next_column};
ghost use Rattle.woot.specs.State.{initial};
ghost use Rattle.woot.specs.Table.{keys};
ghost use Rattle.convergence.specs.Agreement.{Standing};
ghost use Rattle.index.specs.Keys.{AllSmall};
ghost use Rattle.index.specs.Tabled.{Tabled};
ghost use Rattle.memory.specs.Lent.{Full};
ghost use Rattle.admission.specs.Calls.{admitted_by};

use answers::{Answer, Refusal};
use neighbours::{cycles, pairs, places};
use woot::{CHARACTERS, CODE_POINTS, NEXT_KEYS, PREVIOUS_KEYS, Replica, Table};

// What loading for use gives: the answer, and the very replica, or beside a refusal one that no site has.
#[derive(Clone, Copy)]
pub struct Admitted {
    pub answer: Answer,
    pub replica: Replica,
}

// Internal step: whether the rows with these keys and neighbours can be made. The call has checked the form.
fn is_loadable<'a>(table: &'a Table, ids: &'a [u32], previous: &'a [u32], next: &'a [u32]) -> bool
    requires tabled { Tabled table.now ids.now }
    requires ids_in_bounds { length ids.now ≤ length previous.now }
    requires ids_in_bounds_2 { length ids.now ≤ length next.now }
    ensures { (cs : List Character) → Standing cs → AllSmall cs → ids.now ≡ keys cs
        → previous.now ≡ previous_keys cs → next.now ≡ next_keys cs → result ≡ loadable cs }
{
    let end = index::place_of(table, ids, 1);
    let mut above = [0u16; CHARACTERS];
    places::find_places(table, ids, previous, end, 0, &mut above);
    let mut below = [0u16; CHARACTERS];
    places::find_places(table, ids, next, end, 2, &mut below);
    if !pairs::ordered(ids, &above, &below) {
        return false;
    }
    cycles::acyclic(&above, &below, ids.len())
}

// The same of the first n rows in a replica's arrays, whose columns are parts of one.
fn can_be_made<'a>(table: &'a Table, characters: &'a [u32], n: usize) -> bool
    requires characters_len { length characters.now ≡ character_numbers }
    requires n_le_character_slots { n ≤ character_slots }
    requires tabled { Tabled table.now (take n (key_column characters.now)) }
    ensures { (cs : List Character) → Standing cs → AllSmall cs
        → take n (key_column characters.now) ≡ keys cs
        → take n (previous_column characters.now) ≡ previous_keys cs
        → take n (next_column characters.now) ≡ next_keys cs → result ≡ loadable cs }
{
    let ids = &characters[0..CHARACTERS];
    let previous = &characters[PREVIOUS_KEYS..NEXT_KEYS];
    let next = &characters[NEXT_KEYS..CODE_POINTS];
    is_loadable(table, &ids[..n], &previous[..n], &next[..n])
}

// Internal step: whether a replica may be used: the form is looked at first, and then the rows.
pub fn judge(replica: &Replica) -> Answer
    requires { Full replica.now }
    ensures { result ≡ (admitted_by replica.now).answer }
{
    if !well_formed::is_well_formed(replica) {
        return Answer::Refused(Refusal::Form);
    }
    let document = &replica.document;
    if !can_be_made(&document.table, &document.characters, document.length) {
        return Answer::Refused(Refusal::Unreachable);
    }
    Answer::Done {
        integrated: 0,
        discarded: 0,
    }
}

// A refusal: nothing is loaded.
fn refused(refusal: Refusal) -> Admitted
    ensures { result ≡ record { answer = Answer.Refused refusal; replica = stored (initial 0) } }
{
    let answer = Answer::Refused(refusal);
    let replica = Replica::empty(0);
    Admitted { answer, replica }
}

// Loads a replica for use.
pub fn admit(replica: Replica) -> Admitted
    ensures { result ≡ admitted_by replica }
{
    let answer = judge(&replica);
    match answer {
        Answer::Refused(refusal) => refused(refusal),
        Answer::Done {
            integrated: _,
            discarded: _,
        } => Admitted { answer, replica },
        Answer::Deferred => Admitted { answer, replica },
        Answer::Duplicate => Admitted { answer, replica },
    }
}
