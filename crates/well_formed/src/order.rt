// Whether each character stands below its previous and above its next, by the table.
ghost use Rattle.std.specs.Prelude.{◌≡◌, true, List, ℕ, ◌≤◌, ◌<◌, length, take};
ghost use Rattle.lists.specs.Lists.{every, throughout};
ghost use Rattle.woot.specs.Form.{ordered};
ghost use Rattle.woot.specs.Memory.{characters_of, character_slots};
ghost use Rattle.woot.specs.Ranges.{character_in_range};
ghost use Rattle.index.specs.Tabled.{Tabled};
ghost use Rattle.well_formed.specs.Order.{stands_between, between_at};

use woot::Table;

// Whether the character with index i, of n, stands between two places.
#[tactic(auto, unfolding(crate::specs::Order::stands_between))]
fn stands_between(n: usize, i: usize, above: usize, below: usize) -> bool
    requires n_le_character_slots { n ≤ character_slots }
    requires i_lt_n { i < n }
    ensures { result ≡ stands_between n i above below }
{
    above < i + 1 && i + 1 < below && below <= n + 1
}

// Whether each character stands between its neighbours. Most stand beside them, so that the adjacent place is looked at
// first.
fn all_between<'a>(table: &'a Table, ids: &'a [u32], previous: &'a [u32], next: &'a [u32]) -> bool
    requires tabled { Tabled table.now ids.now }
    requires ids_in_bounds { length ids.now ≤ length previous.now }
    requires ids_in_bounds_2 { length ids.now ≤ length next.now }
    ensures { result
        ≡ throughout (between_at ids.now previous.now next.now)
        (length ids.now) }
{
    let end = index::place_of(table, ids, 1);
    for i in 0..ids.len() {
        let above = index::place_near(table, ids, end, i, previous[i]);
        let below = index::place_near(table, ids, end, i + 2, next[i]);
        if !stands_between(ids.len(), i, above, below) {
            return false;
        }
    }
    true
}

// Internal step: whether each of the first n characters, which are in range, stands between its neighbours. The calls
// lend arrays of these sizes, and have checked the ranges and the table.
pub fn characters_ordered<'a>(
    table: &'a Table,
    ids: &'a [u32],
    previous: &'a [u32],
    next: &'a [u32],
    n: usize,
) -> bool
    requires n_in_bounds { n ≤ length ids.now }
    requires n_in_bounds_2 { n ≤ length previous.now }
    requires n_in_bounds_3 { n ≤ length next.now }
    requires tabled { Tabled table.now (take n ids.now) }
    ensures { (points toggles : List ℕ)
        → every character_in_range (characters_of ids.now previous.now next.now points
        toggles n) ≡ true
        → result ≡ every (ordered (characters_of ids.now previous.now next.now points
        toggles n)) (characters_of ids.now previous.now next.now points toggles n) }
{
    all_between(table, &ids[..n], previous, next)
}
