// The chains of the table of keys: looking up a key, and the table of given keys.
#![tactic(auto)]

ghost use Rattle.std.specs.Prelude.{◌≡◌, ◌*◌, ◌<◌, ◌≤◌, length, take};
ghost use Rattle.woot.specs.Table.{chain_of, slot, lookup, free_slot, entered, table_of, chains};
ghost use Rattle.woot.specs.Memory.{character_slots};
ghost use Rattle.chains.specs.Places.{place_found};
ghost use Rattle.chains.specs.Sizes.{Sized};

use woot::Table;

// The chain of a key.
pub fn chain(key: u32) -> usize
    ensures value { result ≡ chain_of key }
    ensures upper_bound { result < chains }
{
    (key as u64 * 2654435769 / 4194304 % 1024) as usize
}

// Internal step: the slot of the link that leads on from a place by the next bit of a key. The calls have found the
// place in a table.
pub fn slot(at: usize, rest: u32) -> usize
    requires at_nonzero { 0 < at }
    requires at_bound { at < 65536 }
    ensures value { result ≡ slot at rest }
    ensures upper_bound { result < 2 * at }
{
    2 * (at - 1) + (rest % 2) as usize
}

// Internal step: the place of a key, where the walk down its chain comes to it, and 0 where it does not. A place is
// believed only where the key stands there, and a link only where it leads to a later one, so that any table will do.
// The calls lend a table whose arrays have these sizes.
pub fn lookup<'a>(table: &'a Table, keys: &'a [u32], key: u32) -> usize
    requires heads_len { length table.now.heads ≡ chains }
    requires keys_in_bounds { 2 * length keys.now ≤ length table.now.links }
    ensures { result ≡ place_found (lookup table.now keys.now key) }
{
    let mut rest = key;
    let mut at = 0;
    let mut next = place(table.heads[chain(key)]);
    // It stays a while: it follows the links of a chain, and counts no index.
    while at < next && next <= keys.len() {
        if keys[next - 1] == key {
            return next;
        }
        at = next;
        next = place(table.links[slot(at, rest)]);
        rest /= 2;
    }
    0
}

// A link as a place.
pub fn place(link: u16) -> usize
    ensures value { result ≡ link }
    ensures upper_bound { result < 65536 }
{
    link as usize
}

// Where a key is to be linked in a chain that starts at the given one of n places: the slot of the first link on its
// way that leads to none of them.
fn free_slot(links: &[u16], n: usize, head: usize, key: u32) -> usize
    requires n_in_bounds { 2 * n ≤ length links.now }
    requires n_bound { n < 65536 }
    requires head_nonzero { 0 < head }
    requires head_le_n { head ≤ n }
    ensures value { result ≡ free_slot n links.now n key head }
    ensures upper_bound { result < 2 * n }
{
    let mut rest = key;
    let mut at = head;
    let mut free = slot(at, rest);
    let mut next = links[free] as usize;
    // It stays a while: it follows the links of a chain, and counts no index.
    while at < next && next <= n {
        at = next;
        rest /= 2;
        free = slot(at, rest);
        next = links[free] as usize;
    }
    free
}

// Internal step: enters the key with the index i in a table of the keys before it. The calls have no more
// keys than a table has places.
pub fn enter(i: usize, key: u32, table: &mut Table)
    requires i_lt_character_slots { i < character_slots }
    requires sized { Sized table.old }
    ensures { table.new ≡ entered table.old i key }
{
    let c = chain(key);
    let head = place(table.heads[c]);
    if 0 < head && head <= i {
        let free = free_slot(&table.links, i, head, key);
        table.links[free] = (i + 1) as u16;
    } else {
        table.heads[c] = (i + 1) as u16;
    }
}

// Internal step: makes the table of the first n keys, each key entered in its turn. What was in the table does not
// matter.
pub fn enter_all(keys: &[u32], n: usize, table: &mut Table)
    requires n_in_bounds { n ≤ length keys.now }
    requires n_le_character_slots { n ≤ character_slots }
    requires sized { Sized table.old }
    ensures { table.new ≡ table_of (take n keys.now) }
{
    table.heads.fill(0);
    table.links.fill(0);
    for (i, key) in keys[..n].iter().enumerate() {
        enter(i, *key, table);
    }
}
