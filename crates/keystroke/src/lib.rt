// One character typed on a replica that was checked: it is put in with what it releases, and the next
// goes just below it. The public function is an internal step: the calls have checked the replica, and that the clock
// and the room are enough. (Document 02, Req 11.)
#![tactic(auto)]

ghost use Rattle.std.specs.Prelude.{◌≡◌, true, ◌∷◌, [], ◌+◌, ◌^◌, ◌≤◌, ◌<◌, length, take};
ghost use Rattle.memory.specs.Lent.{viewed, Full};
ghost use Rattle.woot.specs.Calls.{generated_insert};
ghost use Rattle.woot.specs.Limits.{last_clock};
ghost use Rattle.woot.specs.Memory.{character_numbers, character_slots, toggle_counts};
ghost use Rattle.woot.specs.Memory.{key_column};
ghost use Rattle.woot.specs.Ranges.{insert_in_range};
ghost use Rattle.woot.specs.State.{State};
ghost use Rattle.woot.specs.Table.{keys};
ghost use Rattle.keystroke.specs.Steps.{Typeable, Neighboured, OneTyped};

use delivery::Counts;
use woot::{CHARACTERS, Insert, Replica};

// How far typing has come, beside the replica: the insertion point of the next character, and how many operations were
// carried out and how many discarded.
#[derive(Clone, Copy)]
pub struct Typing {
    pub point: usize,
    pub integrated: usize,
    pub discarded: usize,
}

// A character that was typed: its insert, and how far typing is then.
#[derive(Clone, Copy)]
pub struct Typed {
    pub insert: Insert,
    pub after: Typing,
}

// The insert of a code point at the insertion point.
fn make(replica: &Replica, point: usize, code_point: u32) -> Insert
    requires characters_len { length replica.now.document.characters ≡ character_numbers }
    requires n_in_bounds { replica.now.document.length ≤ length replica.now.document.toggles }
    requires clock_lt_last_clock { replica.now.site.clock < last_clock }
    requires length_le_character_slots { replica.now.document.length ≤ character_slots }
    requires neighboured { Neighboured (viewed replica.now) point code_point }
    ensures { (s : State) → replica.now.site ≡ s.site
        → keys s.characters ≡ take replica.now.document.length (key_column replica.now.document.characters)
        → toggle_counts s.characters ≡ take replica.now.document.length replica.now.document.toggles
        → insert_in_range (generated_insert s point code_point) ≡ true
        → result ≡ generated_insert s point code_point }
{
    let document = &replica.document;
    let ids = &document.characters[0..CHARACTERS];
    let left = visible::left(ids, &document.toggles, document.length, point);
    let right = visible::right(ids, &document.toggles, document.length, point);
    generation::next_insert(replica.site, left, right, code_point)
}

// How far typing has come with one character more.
fn further(at: Typing, done: Counts, point: usize) -> Typing
    requires integrated_bound { at.integrated + done.integrated < 2 ^ 64 }
    requires discarded_bound { at.discarded + done.discarded < 2 ^ 64 }
    ensures { result
        ≡ record {
          point = point;
          integrated = at.integrated + done.integrated;
          discarded = at.discarded + done.discarded;
        } }
{
    Typing {
        point,
        integrated: at.integrated + done.integrated,
        discarded: at.discarded + done.discarded,
    }
}

// Internal step: types one character, and carries out all that it released: its insert is answered, or none where
// there is no place for it, and then the replica stays as it is. The calls have checked the replica, and the clock and
// the room for it.
pub fn type_next(replica: &mut Replica, at: Typing, code_point: u32) -> Option<Typed>
    requires full { Full replica.old }
    requires typeable { Typeable (viewed replica.old) at.point (code_point ∷ []) }
    requires waiting_bound { at.integrated + at.discarded + replica.old.document.waiting + 1 < 2 ^ 64 }
    ensures full_after { Full replica.new }
    ensures unchanged { result ≡ None → replica.new ≡ replica.old }
    ensures value { OneTyped (viewed replica.old) at code_point (viewed replica.new) result }
{
    let insert = make(replica, at.point, code_point);
    let document = &mut replica.document;
    let placement = delivery::find_place(
        &document.table,
        &document.characters,
        document.length,
        insert,
    );
    let k = delivery::place_of(placement)?;
    let done = delivery::put_in(document, k, insert);
    replica.site.clock += 1;
    let id = insert.id;
    let point = cursor::visible_through(
        &replica.document.characters,
        &replica.document.toggles,
        replica.document.length,
        index::key(id),
    );
    Some(Typed {
        insert,
        after: further(at, done, point),
    })
}
