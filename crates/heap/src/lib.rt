// Inserts and toggles of a heap in lent arrays: the four numbers of an insert, put into a slot of their columns,
// moved and read. The public functions are internal steps of `building`. (Document 02, Req 08.)
#![tactic(auto)]

ghost use Rattle.std.specs.Prelude.{◌≡◌, true, ◌<◌, length};
ghost use Rattle.woot.specs.Memory.{character_slots, character_numbers};
ghost use Rattle.woot.specs.Ranges.{insert_in_range};
ghost use Rattle.heap.specs.Columns.{insert_at};
ghost use Rattle.heap.specs.Keeping.{PutAt, Moved};

use woot::{CODE_POINTS, Insert, NEXT_KEYS, PREVIOUS_KEYS};

// The toggles' array has two columns: the keys of their targets, and from here on who sent each with its count.
pub const STAMPS: usize = 1024;

pub const TOGGLE_NUMBERS: usize = 2048;

// Internal step: puts four numbers into slot i, one into each column. The calls have such slots.
pub fn put_at(inserts: &mut [u32], i: usize, w: u32, x: u32, y: u32, z: u32)
    requires inserts_len { length inserts.old ≡ character_numbers }
    requires i_lt_character_slots { i < character_slots }
    ensures { PutAt inserts.old i w x y z inserts.new }
{
    inserts[i] = w;
    inserts[PREVIOUS_KEYS + i] = x;
    inserts[NEXT_KEYS + i] = y;
    inserts[CODE_POINTS + i] = z;
}

// Internal step: moves the insert in one slot into another, which may be the same: most that stay behind are in their
// slot already. The calls have such slots.
pub fn move_insert(inserts: &mut [u32], from: usize, to: usize)
    requires inserts_len { length inserts.old ≡ character_numbers }
    requires from_lt_character_slots { from < character_slots }
    requires to_lt_character_slots { to < character_slots }
    ensures { Moved inserts.old from to inserts.new }
{
    if from == to {
        return;
    }
    let id = inserts[from];
    let previous = inserts[PREVIOUS_KEYS + from];
    let next = inserts[NEXT_KEYS + from];
    let code_point = inserts[CODE_POINTS + from];
    put_at(inserts, to, id, previous, next, code_point);
}

// Internal step: the insert in a slot. The calls have checked the ranges.
pub fn insert_at(inserts: &[u32], i: usize) -> Insert
    requires inserts_len { length inserts.now ≡ character_numbers }
    requires i_lt_character_slots { i < character_slots }
    requires i_value { insert_in_range (insert_at inserts.now i) ≡ true }
    ensures { result ≡ insert_at inserts.now i }
{
    memory::insert(
        inserts[i],
        inserts[PREVIOUS_KEYS + i],
        inserts[NEXT_KEYS + i],
        inserts[CODE_POINTS + i],
    )
}
