// Which pending operation has all it needs, found on the keys of the characters and of what the operations need.
ghost use Rattle.std.specs.Prelude.{◌≡◌, ◌&&◌, ◌≤◌, length, take};
ghost use Rattle.index.specs.Tabled.{Tabled};
ghost use Rattle.pending.specs.Ready.{held_in, ready_in};

use woot::Table;

// Internal step: whether a key has a place among the keys of the characters, or is a mark's. The calls have a table
// of the keys.
pub fn is_held<'a>(table: &'a Table, ids: &'a [u32], key: u32) -> bool
    requires { Tabled table.now ids.now }
    ensures { result ≡ held_in ids.now key }
{
    index::place_of(table, ids, key) <= ids.len() + 1
}

// Whether two keys both have a place.
fn are_held<'a>(table: &'a Table, ids: &'a [u32], first: u32, second: u32) -> bool
    requires { Tabled table.now ids.now }
    ensures { result ≡ held_in ids.now first && held_in ids.now second }
{
    is_held(table, ids, first) && is_held(table, ids, second)
}

// Internal step: the index of the earliest of the operations both of whose keys have a place. The calls have a table
// of the keys.
pub fn ready<'a>(
    table: &'a Table,
    ids: &'a [u32],
    first: &'a [u32],
    second: &'a [u32],
) -> Option<usize>
    requires { Tabled table.now ids.now }
    ensures { result ≡ ready_in ids.now first.now second.now }
{
    let end = first.len().min(second.len());
    for i in 0..end {
        if are_held(table, ids, first[i], second[i]) {
            return Some(i);
        }
    }
    None
}

// Internal step: the same of w operations, with n characters.
pub fn ready_among<'a>(
    table: &'a Table,
    ids: &'a [u32],
    n: usize,
    first: &'a [u32],
    second: &'a [u32],
    w: usize,
) -> Option<usize>
    requires n_in_bounds { n ≤ length ids.now }
    requires w_in_bounds { w ≤ length first.now }
    requires w_in_bounds_2 { w ≤ length second.now }
    requires tabled { Tabled table.now (take n ids.now) }
    ensures { result
        ≡ ready_in (take n ids.now) (take w first.now) (take w second.now) }
{
    ready(table, &ids[..n], &first[..w], &second[..w])
}
