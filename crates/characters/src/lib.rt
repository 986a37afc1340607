// The characters of a document, on the arrays that hold them: one put in, one toggled, and the slots behind them
// cleared. Each array is edited where it lies.
#![tactic(auto)]

ghost use Rattle.std.specs.Prelude.{◌≡◌, ◌+◌, ◌≤◌, ◌<◌, max, length, take, set, get_or};
ghost use Rattle.lists.specs.Padding.{pad};
ghost use Rattle.slots.specs.Slots.{put_at};
ghost use Rattle.woot.specs.Table.{key, table_of};
ghost use Rattle.chains.specs.Sizes.{Sized};
ghost use Rattle.woot.specs.Memory.{column, character_numbers, character_slots, code_point_column, key_column, next_column};
ghost use Rattle.woot.specs.Memory.{previous_column};

use woot::{CHARACTER_NUMBERS, CHARACTERS, CODE_POINTS, Insert, NEXT_KEYS, PREVIOUS_KEYS, Table};

// Puts four numbers in after the first k of the first n, one into each column.
fn put_numbers(
    characters: &mut [u32],
    n: usize,
    k: usize,
    id: u32,
    previous: u32,
    next: u32,
    code_point: u32,
)
    requires k_le_n { k ≤ n }
    requires n_lt_character_slots { n < character_slots }
    requires characters_len { length characters.old ≡ character_numbers }
    ensures characters_after { key_column characters.new ≡ put_at n k id (key_column characters.old) }
    ensures characters_after_2 { previous_column characters.new
        ≡ put_at n k previous (previous_column characters.old) }
    ensures characters_after_3 { next_column characters.new
        ≡ put_at n k next (next_column characters.old) }
    ensures characters_after_4 { code_point_column characters.new
        ≡ put_at n k code_point (code_point_column characters.old) }
{
    slots::put(&mut characters[..CHARACTERS], n, k, id);
    slots::put(&mut characters[PREVIOUS_KEYS..NEXT_KEYS], n, k, previous);
    slots::put(&mut characters[NEXT_KEYS..CODE_POINTS], n, k, next);
    slots::put(
        &mut characters[CODE_POINTS..CHARACTER_NUMBERS],
        n,
        k,
        code_point,
    );
}

// Internal step: puts the character of an insert in after the first k of the first n, and makes the table anew. The
// calls have found the place, and checked that there is a slot.
pub fn put_in(
    characters: &mut [u32],
    toggles: &mut [u8],
    table: &mut Table,
    n: usize,
    k: usize,
    insert: Insert,
)
    requires k_le_n { k ≤ n }
    requires n_lt_character_slots { n < character_slots }
    requires characters_len { length characters.old ≡ character_numbers }
    requires toggles_len { length toggles.old ≡ character_slots }
    requires sized { Sized table.old }
    ensures characters_after { key_column characters.new
        ≡ put_at n k (key insert.id) (key_column characters.old) }
    ensures characters_after_2 { previous_column characters.new
        ≡ put_at n k (key insert.previous) (previous_column characters.old) }
    ensures characters_after_3 { next_column characters.new
        ≡ put_at n k (key insert.next) (next_column characters.old) }
    ensures characters_after_4 { code_point_column characters.new
        ≡ put_at n k insert.code_point (code_point_column characters.old) }
    ensures toggles_after { toggles.new ≡ put_at n k 0 toggles.old }
    ensures table_after { table.new ≡ table_of (take (n + 1) (key_column characters.new)) }
{
    let id = insert.id;
    let previous = insert.previous;
    let next = insert.next;
    put_numbers(
        characters,
        n,
        k,
        index::key(id),
        index::key(previous),
        index::key(next),
        insert.code_point,
    );
    slots::put(toggles, n, k, 0);
    chains::enter_all(characters, n + 1, table);
}

// The larger of two counts of toggles.
fn larger(a: u8, b: u8) -> u8
    ensures { result ≡ max a b }
{
    if a <= b { b } else { a }
}

// Internal step: gives the character in a slot the larger count of toggles. The calls have found it there.
pub fn toggle(toggles: &mut [u8], k: usize, count: u8)
    requires { k < length toggles.old }
    ensures { toggles.new
        ≡ set toggles.old k (max (get_or toggles.old k 0) count) }
{
    let before = toggles[k];
    toggles[k] = larger(before, count);
}

// The first n of each column stay, and every slot behind them is 0.
fn clear_columns(characters: &mut [u32], n: usize)
    requires n_le_character_slots { n ≤ character_slots }
    requires characters_len { length characters.old ≡ character_numbers }
    ensures characters_after { key_column characters.new
        ≡ pad character_slots 0 (take n (key_column characters.old)) }
    ensures characters_after_2 { previous_column characters.new
        ≡ pad character_slots 0 (take n (previous_column characters.old)) }
    ensures characters_after_3 { next_column characters.new
        ≡ pad character_slots 0 (take n (next_column characters.old)) }
    ensures characters_after_4 { code_point_column characters.new
        ≡ pad character_slots 0 (take n (code_point_column characters.old)) }
{
    slots::clear(&mut characters[..CHARACTERS], n, 0);
    slots::clear(&mut characters[PREVIOUS_KEYS..NEXT_KEYS], n, 0);
    slots::clear(&mut characters[NEXT_KEYS..CODE_POINTS], n, 0);
    slots::clear(&mut characters[CODE_POINTS..CHARACTER_NUMBERS], n, 0);
}

// Internal step: the first n stay, and every slot behind them is 0. The calls have compared the count.
pub fn clear(characters: &mut [u32], toggles: &mut [u8], n: usize)
    requires n_le_character_slots { n ≤ character_slots }
    requires characters_len { length characters.old ≡ character_numbers }
    requires toggles_len { length toggles.old ≡ character_slots }
    ensures characters_after { key_column characters.new
        ≡ pad character_slots 0 (take n (key_column characters.old)) }
    ensures characters_after_2 { previous_column characters.new
        ≡ pad character_slots 0 (take n (previous_column characters.old)) }
    ensures characters_after_3 { next_column characters.new
        ≡ pad character_slots 0 (take n (next_column characters.old)) }
    ensures characters_after_4 { code_point_column characters.new
        ≡ pad character_slots 0 (take n (code_point_column characters.old)) }
    ensures toggles_after { toggles.new ≡ pad character_slots 0 (take n toggles.old) }
{
    clear_columns(characters, n);
    slots::clear(toggles, n, 0);
}
