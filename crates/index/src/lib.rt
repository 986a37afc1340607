// Identifiers as numbers, and where a character stands among those whose numbers are lent: by a plain search, and by
// the table, whose chains are made and walked in `chains`.
#![tactic(auto)]

pub mod table;

ghost use Rattle.std.specs.Prelude.{◌≡◌, ◌&&◌, ◌||◌, min};
ghost use Rattle.woot.specs.Table.{key};
ghost use Rattle.index.specs.Keys.{found, place_in, Small};
ghost use Rattle.index.specs.Tabled.{Tabled};

use woot::{Identifier, Table};

// An identifier as one number. Numbers are ordered as their identifiers are, and the marks are 0 and 1.
pub fn key(id: Identifier) -> u32
    ensures value { result ≡ key id }
    ensures small { Small id }
{
    id.site as u32 * 65536 + id.clock as u32
}

// The first index of a key among keys that have no table: those of the pending inserts.
pub fn find(keys: &[u32], key: u32) -> Option<usize>
    ensures { result ≡ found key keys.now }
{
    for (i, held) in keys.iter().enumerate() {
        if *held == key {
            return Some(i);
        }
    }
    None
}

// Internal step: the place of the character with the given key, by a table that agrees: 0 for the begin mark, one
// past the last for the end mark, further where there is none. The calls have checked the table, or made it.
pub fn place_of<'a>(table: &'a Table, ids: &'a [u32], key: u32) -> usize
    requires { Tabled table.now ids.now }
    ensures { result ≡ place_in ids.now key }
{
    if key == 0 {
        return 0;
    }
    match table::find(table, ids, key) {
        Some(i) => i + 1,
        None => {
            let end = ids.len() + 1;
            if key == 1 { end } else { end + 1 }
        }
    }
}

// Internal step: the same, with the end mark's place at hand, which most inserts name, and with one place looked at
// before the table is asked: most characters stand beside their neighbours. The calls have checked the table, or made
// it, and sought the end mark's place in it.
pub fn place_near<'a>(table: &'a Table, ids: &'a [u32], end: usize, near: usize, key: u32) -> usize
    requires tabled { Tabled table.now ids.now }
    requires end_value { end ≡ place_in ids.now 1 }
    ensures { result ≡ place_in ids.now key }
{
    if key == 0 {
        return 0;
    }
    if key == 1 {
        return end;
    }
    if 0 < near && near <= ids.len() && ids[near - 1] == key {
        return near;
    }
    place_of(table, ids, key)
}

// Whether both hold. A test made of these has no way out before its end, so that a processor need not guess.
pub fn both(a: bool, b: bool) -> bool
    ensures { result ≡ a && b }
{
    a & b
}

// Whether one of them holds.
pub fn either(a: bool, b: bool) -> bool
    ensures { result ≡ a || b }
{
    a | b
}

// The lesser of two numbers.
pub fn lesser(a: usize, b: usize) -> usize
    ensures { result ≡ min a b }
{
    a.min(b)
}
