// Looking up a key by the table, as a plain search finds it, whether the table agrees with the keys, and the table of
// the keys where there is one that agrees.
ghost use Rattle.std.specs.Prelude.{◌≡◌, true, ◌+◌, ◌*◌, ◌<◌, ◌≤◌, length, take};
ghost use Rattle.woot.specs.Table.{found_at, agrees, table_of, chains, table_links};
ghost use Rattle.index.specs.Keys.{found};
ghost use Rattle.index.specs.Entries.{filled, entries};
ghost use Rattle.index.specs.Tabled.{Tabled};

use woot::Table;

// Internal step: the first index of a key, as a plain search finds it, by a table that agrees. The calls have checked
// the table, or made it.
pub fn find<'a>(table: &'a Table, keys: &'a [u32], key: u32) -> Option<usize>
    requires { Tabled table.now keys.now }
    ensures { result ≡ found key keys.now }
{
    let at = chains::lookup(table, keys, key);
    if at == 0 {
        return None;
    }
    Some(at - 1)
}

// Internal step: the same among the first n keys.
pub fn find_among<'a>(table: &'a Table, keys: &'a [u32], n: usize, key: u32) -> Option<usize>
    requires n_in_bounds { n ≤ length keys.now }
    requires tabled { Tabled table.now (take n keys.now) }
    ensures { result ≡ found key (take n keys.now) }
{
    find(table, &keys[..n], key)
}

// The head of a chain where it is a place up to that of the index, and else the first place, so that there is something
// to look at in any case.
fn believed(head: usize, i: usize) -> usize
    requires { head < 65536 }
    ensures result_nonzero { 0 < result }
    ensures upper_bound { result ≤ i + 1 }
    ensures upper_bound_2 { result < 65536 }
{
    if 0 < head && head <= i { head } else { 1 }
}

// Whether the key at the index is seen to be found there in one step or two, as most are. Both steps are always looked
// at: to go by the first would be a guess at each key, and guesses that fail take more time than the second step.
fn found_near<'a>(table: &'a Table, keys: &'a [u32], i: usize) -> bool
    requires heads_len { length table.now.heads ≡ chains }
    requires keys_in_bounds { 2 * length keys.now ≤ length table.now.links }
    requires i_in_bounds { i < length keys.now }
    ensures { result ≡ true → found_at table.now keys.now i ≡ true }
{
    let key = keys[i];
    let head = chains::place(table.heads[chains::chain(key)]);
    let at = believed(head, i);
    let next = chains::place(table.links[chains::slot(at, key)]);
    let second = (at == head) & (keys[at - 1] != key) & (next == i + 1);
    (head == i + 1) | second
}

// Whether the key at the index is found there.
fn found_at<'a>(table: &'a Table, keys: &'a [u32], i: usize) -> bool
    requires heads_len { length table.now.heads ≡ chains }
    requires keys_in_bounds { 2 * length keys.now ≤ length table.now.links }
    requires i_in_bounds { i < length keys.now }
    ensures { result ≡ found_at table.now keys.now i }
{
    found_near(table, keys, i) || chains::lookup(table, keys, keys[i]) == i + 1
}

// Internal step: whether each key is found at its own index. The calls lend a table whose arrays have these sizes.
pub fn agrees<'a>(table: &'a Table, keys: &'a [u32]) -> bool
    requires heads_len { length table.now.heads ≡ chains }
    requires keys_in_bounds { 2 * length keys.now ≤ length table.now.links }
    ensures { result ≡ agrees table.now keys.now }
{
    for i in 0..keys.len() {
        if !found_at(table, keys, i) {
            return false;
        }
    }
    true
}

// Internal step: whether each of the first n keys is found at its own index. The calls lend a table whose arrays have
// these sizes.
pub fn agrees_among<'a>(table: &'a Table, keys: &'a [u32], n: usize) -> bool
    requires heads_len { length table.now.heads ≡ chains }
    requires n_in_bounds { 2 * n ≤ length table.now.links }
    requires n_in_bounds_2 { n ≤ length keys.now }
    ensures { result ≡ agrees table.now (take n keys.now) }
{
    agrees(table, &keys[..n])
}

// Whether a slot holds a place, as a number to add up.
fn filled(place: u16) -> u16
    ensures value { result ≡ filled place }
    ensures upper_bound { result ≤ 1 }
{
    u16::from(place != 0)
}

// How many slots hold a place.
fn entries(slots: &[u16]) -> u16
    requires { length slots.now ≤ table_links }
    ensures value { result ≡ entries slots.now }
    ensures upper_bound { result ≤ table_links }
{
    let mut count = 0;
    for slot in slots {
        count += filled(*slot);
    }
    count
}

// Internal step: makes the table of the first n keys where there is one that agrees with them: with an entry for
// each key and none besides it is their table already, and stays. The calls have checked the table.
pub fn renew(keys: &[u32], n: usize, table: &mut Table)
    requires n_in_bounds { n ≤ length keys.now }
    requires tabled { Tabled table.old (take n keys.now) }
    ensures { table.new ≡ table_of (take n keys.now) }
{
    if entries(&table.heads) as usize + entries(&table.links) as usize == n {
        return;
    }
    chains::enter_all(keys, n, table);
}
