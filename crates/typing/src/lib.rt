// Characters typed one after another on a replica that was checked once: each is put in with what it
// releases, and the next goes just below it. The public function is an internal step: the calls have checked the
// replica, and that the clock and the room are enough for all of them. (Document 02, Req 11.)
#![tactic(auto)]

ghost use Rattle.std.specs.Prelude.{◌≡◌, ◌≤◌, ◌<◌, length};
ghost use Rattle.memory.specs.Columns.{meaning};
ghost use Rattle.memory.specs.Lent.{viewed, Full};
ghost use Rattle.woot.specs.Memory.{character_numbers, character_slots};
ghost use Rattle.keystroke.specs.Steps.{Typeable};
ghost use Rattle.typing.specs.Steps.{Unwritten, points_in, Inscribed, AllTyped};

use keystroke::Typing;
use woot::{CHARACTER_NUMBERS, CHARACTERS, CODE_POINTS, Insert, NEXT_KEYS, PREVIOUS_KEYS, Replica};

// Puts the numbers of an insert into slot i, one into each column.
fn inscribe(typed: &mut [u32], i: usize, insert: Insert)
    requires i_lt_character_slots { i < character_slots }
    requires typed_len { length typed.old ≡ character_numbers }
    ensures { Inscribed typed.old i insert typed.new }
{
    let id = insert.id;
    let previous = insert.previous;
    let next = insert.next;
    slots::set(&mut typed[..CHARACTERS], i, index::key(id));
    slots::set(
        &mut typed[PREVIOUS_KEYS..NEXT_KEYS],
        i,
        index::key(previous),
    );
    slots::set(&mut typed[NEXT_KEYS..CODE_POINTS], i, index::key(next));
    slots::set(
        &mut typed[CODE_POINTS..CHARACTER_NUMBERS],
        i,
        insert.code_point,
    );
}

// Internal step: types the first code points of the fourth column, the first at the insertion point and each other
// just below the one before, and puts the numbers of each insert into its slot. Tells what that comes to, or nothing
// where there is no place for one of them. The arrays may hold some of them then, but the site and the counts of the
// replica are as they were.
pub fn type_all(
    replica: &mut Replica,
    typed: &mut [u32],
    point: usize,
    count: usize,
) -> Option<Typing>
    requires full { Full replica.old }
    requires typed_len { length typed.old ≡ character_numbers }
    requires count_le_character_slots { count ≤ character_slots }
    requires unwritten { Unwritten (points_in count typed.old) typed.old }
    requires typeable { Typeable (viewed replica.old) point (points_in count typed.old) }
    ensures full_after { Full replica.new }
    ensures put_back { result ≡ None → (replica.new.site ≡ replica.old.site)
        × (replica.new.document.length ≡ replica.old.document.length)
        × (replica.new.document.waiting ≡ replica.old.document.waiting) }
    ensures value { AllTyped (meaning (viewed replica.old)) point (points_in count typed.old) typed.new
        (viewed replica.new) result }
{
    let site = replica.site;
    let length = replica.document.length;
    let waiting = replica.document.waiting;
    let mut at = Typing {
        point,
        integrated: 0,
        discarded: 0,
    };
    for i in 0..count {
        match keystroke::type_next(replica, at, typed[CODE_POINTS + i]) {
            Some(step) => {
                inscribe(typed, i, step.insert);
                at = step.after;
            }
            None => {
                replica.site = site;
                replica.document.length = length;
                replica.document.waiting = waiting;
                return None;
            }
        }
    }
    Some(at)
}
