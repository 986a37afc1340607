// Inserts in lent arrays of which those that are repeated are dropped, and two that disagree found. The public
// function is an internal step of `building`. (Document 02, Req 08.)
#![tactic(auto)]

ghost use Rattle.std.specs.Prelude.{◌≡◌, true, List, ◌≤◌, ◌<◌, length, take, get_or};
ghost use Rattle.lists.specs.Lists.{every};
ghost use Rattle.woot.specs.declared.Insert.{Insert};
ghost use Rattle.woot.specs.Memory.{character_slots, character_numbers, key_column};
ghost use Rattle.woot.specs.Ranges.{insert_in_range};
ghost use Rattle.chains.specs.Sizes.{Sized};
ghost use Rattle.index.specs.Keys.{found};
ghost use Rattle.index.specs.Tabled.{Tabled};
ghost use Rattle.heap.specs.Columns.{InsertsIn};
ghost use Rattle.sifting.specs.Keeping.{same_fields, Sifted, KeptOnce};

use woot::{CODE_POINTS, NEXT_KEYS, PREVIOUS_KEYS, Table};

// Whether the inserts in two slots are the same, but for their keys.
fn same_fields(inserts: &[u32], i: usize, j: usize) -> bool
    requires inserts_len { length inserts.now ≡ character_numbers }
    requires i_lt_character_slots { i < character_slots }
    requires j_lt_character_slots { j < character_slots }
    ensures { result ≡ same_fields inserts.now i j }
{
    let previous = inserts[PREVIOUS_KEYS + i] == inserts[PREVIOUS_KEYS + j];
    let next = inserts[NEXT_KEYS + i] == inserts[NEXT_KEYS + j];
    let code_point = inserts[CODE_POINTS + i] == inserts[CODE_POINTS + j];
    index::both(index::both(previous, next), code_point)
}

// Looks up the insert in slot i among the first n, which were kept and have a table: one that is found is compared, and
// one that is not is kept behind them and entered. Tells how many are kept then, or nothing where the two disagree.
fn keep_next(inserts: &mut [u32], i: usize, n: usize, table: &mut Table) -> Option<usize>
    requires inserts_len { length inserts.old ≡ character_numbers }
    requires n_le_i { n ≤ i }
    requires i_lt_character_slots { i < character_slots }
    requires tabled { Tabled table.old (take n inserts.old) }
    ensures { Sifted inserts.old table.old i n inserts.new table.new result
        (found (get_or (key_column inserts.old) i 0) (take n inserts.old)) }
{
    let key = inserts[i];
    let found = index::table::find_among(table, inserts, n, key);
    match found {
        Some(j) => {
            if same_fields(inserts, i, j) {
                Some(n)
            } else {
                None
            }
        }
        None => {
            heap::move_insert(inserts, i, n);
            chains::enter(n, key, table);
            Some(n + 1)
        }
    }
}

// Internal step: keeps of the first n inserts those whose identifier was not met before, the first slots for them,
// and tells how many they are, or nothing where another is not the same as the one that was kept. The table is then
// that of those kept; what was in it does not matter. The calls have read the inserts, and checked their ranges.
pub fn keep_once(inserts: &mut [u32], n: usize, table: &mut Table) -> Option<usize>
    requires inserts_len { length inserts.old ≡ character_numbers }
    requires n_le_character_slots { n ≤ character_slots }
    requires sized { Sized table.old }
    ensures kept_once { (is : List Insert) → InsertsIn inserts.old is → n ≡ length is
        → every insert_in_range is ≡ true → KeptOnce is inserts.new result }
    ensures sized_after { Sized table.new }
{
    chains::enter_all(inserts, 0, table);
    let mut count = 0;
    for i in 0..n {
        count = keep_next(inserts, i, count, table)?;
    }
    Some(count)
}
