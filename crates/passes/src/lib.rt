// Placing the inserts of a heap: passes over those that are left, each offered in turn to the characters, until one
// pass places none. (Document 02, Req 08.)
#![tactic(auto)]

ghost use Rattle.std.specs.Prelude.{◌≡◌, true, suc, ◌+◌, ◌<◌, length};
ghost use Rattle.woot.specs.Memory.{character_numbers, character_slots};
ghost use Rattle.woot.specs.Ranges.{insert_in_range};
ghost use Rattle.heap.specs.Columns.{insert_at};
ghost use Rattle.convergence.specs.Passes.{pass, passes};
ghost use Rattle.passes.specs.Steps.{laid_as, Laid, Lays, TakenAs, Offers, Offering, Reaches, Reached};

use integration::Placement;
use pending::ready;
use woot::{Insert, PREVIOUS_KEYS, Table};

// What becomes of an insert that is offered.
#[derive(Clone, Copy)]
pub enum Taken {
    // It stands among the characters.
    Placed,
    // A neighbour is not held: it is kept for the next pass.
    Lacking,
    // It crosses, or has no place.
    Dropped,
}

// How many characters there are after a pass, and how many inserts are left.
#[derive(Clone, Copy)]
pub struct Passed {
    pub length: usize,
    pub left: usize,
}

// Places one insert among the first n characters, where it can be.
fn take_in(
    characters: &mut [u32],
    toggles: &mut [u8],
    table: &mut Table,
    n: usize,
    insert: Insert,
) -> Taken
    requires characters_len { length characters.old ≡ character_numbers }
    requires n_lt_character_slots { n < character_slots }
    requires lays { Lays (laid_as characters.old toggles.old n table.old) }
    ensures { (t : Lays (laid_as characters.old toggles.old n table.old))
        → TakenAs t.characters insert characters.new toggles.new n table.new result }
{
    let placement = delivery::find_place(table, characters, n, insert);
    match placement {
        Placement::Below(k) => {
            characters::put_in(characters, toggles, table, n, k, insert);
            Taken::Placed
        }
        Placement::Missing => Taken::Lacking,
        Placement::Crossed => Taken::Dropped,
        Placement::Unplaceable => Taken::Dropped,
    }
}

// Places the insert in slot i among the first n characters, where it can be. Its previous is looked up by its number
// before the insert is made: in a heap that comes in no useful order most inserts are offered too early, and it is what
// most of these lack.
fn take_at(
    characters: &mut [u32],
    toggles: &mut [u8],
    table: &mut Table,
    inserts: &[u32],
    n: usize,
    i: usize,
) -> Taken
    requires characters_len { length characters.old ≡ character_numbers }
    requires n_lt_character_slots { n < character_slots }
    requires lays { Lays (laid_as characters.old toggles.old n table.old) }
    requires inserts_len { length inserts.now ≡ character_numbers }
    requires i_lt_character_slots { i < character_slots }
    requires i_value { insert_in_range (insert_at inserts.now i) ≡ true }
    ensures { (t : Lays (laid_as characters.old toggles.old n table.old))
        → TakenAs t.characters (insert_at inserts.now i) characters.new toggles.new n table.new result }
{
    if !ready::is_held(table, &characters[..n], inserts[PREVIOUS_KEYS + i]) {
        return Taken::Lacking;
    }
    let insert = heap::insert_at(inserts, i);
    take_in(characters, toggles, table, n, insert)
}

// Offers the insert in slot i to the characters. One that lacks a neighbour moves behind those that are left.
fn offer(
    characters: &mut [u32],
    toggles: &mut [u8],
    table: &mut Table,
    inserts: &mut [u32],
    at: Passed,
    i: usize,
) -> Passed
    requires characters_len { length characters.old ≡ character_numbers }
    requires reaches { Reaches (laid_as characters.old toggles.old at.length table.old) inserts.old
        at.left i }
    ensures { (g : Reaches (laid_as characters.old toggles.old at.length table.old) inserts.old at.left i)
        → Reached (laid_as characters.new toggles.new result.length table.new)
        inserts.new result.left (i + 1) g.many g.passed }
{
    let n = at.length;
    let left = at.left;
    let taken = take_at(characters, toggles, table, inserts, n, i);
    match taken {
        Taken::Placed => Passed {
            length: n + 1,
            left,
        },
        Taken::Lacking => {
            heap::move_insert(inserts, i, left);
            Passed {
                length: n,
                left: left + 1,
            }
        }
        Taken::Dropped => Passed { length: n, left },
    }
}

// Offers each of the first m inserts in turn to the first n characters. Those that lack a neighbour are left, at the
// front of their array and in their order.
fn pass(
    characters: &mut [u32],
    toggles: &mut [u8],
    table: &mut Table,
    inserts: &mut [u32],
    n: usize,
    m: usize,
) -> Passed
    requires characters_len { length characters.old ≡ character_numbers }
    requires offers { Offers (laid_as characters.old toggles.old n table.old) inserts.old m }
    ensures { (o : Offers (laid_as characters.old toggles.old n table.old) inserts.old m)
        → Offering (laid_as characters.new toggles.new result.length table.new)
        inserts.new result.left (pass o.characters o.inserts).characters
        (pass o.characters o.inserts).left }
{
    let mut at = Passed { length: n, left: 0 };
    for i in 0..m {
        at = offer(characters, toggles, table, inserts, at, i);
    }
    at
}

// Internal step: passes over the inserts until one places none, and returns how many characters there are then. The
// arrays hold characters and nothing else, and the inserts may be offered to them.
pub fn place_all(
    characters: &mut [u32],
    toggles: &mut [u8],
    table: &mut Table,
    inserts: &mut [u32],
    n: usize,
    m: usize,
) -> usize
    requires characters_len { length characters.old ≡ character_numbers }
    requires offers { Offers (laid_as characters.old toggles.old n table.old) inserts.old m }
    ensures { (o : Offers (laid_as characters.old toggles.old n table.old) inserts.old m)
        → Laid (laid_as characters.new toggles.new result table.new)
        (passes (suc (length o.inserts)) o.characters o.inserts).characters }
{
    let mut length = n;
    let mut left = m;
    // No count of the passes is known before: one that places nothing is the last.
    loop {
        let passed = pass(characters, toggles, table, inserts, length, left);
        if passed.length == length {
            return passed.length;
        }
        length = passed.length;
        left = passed.left;
    }
}
