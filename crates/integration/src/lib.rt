// Where an insert goes: the place between its neighbours, found in passes over the candidates there. The places of the
// candidates' own neighbours are sought as a pass comes to them, and of no character outside the interval.
#![tactic(auto)]

ghost use Rattle.std.specs.Prelude.{◌≡◌, List, map, ◌<◌, ◌≤◌, length, take, get_or};
ghost use Rattle.woot.specs.declared.Character.{Character};
ghost use Rattle.woot.specs.Table.{keys as keysOfCharacters};
ghost use Rattle.woot.specs.Memory.{previous_keys, next_keys};
ghost use Rattle.index.specs.Keys.{AllSmall, place_in};
ghost use Rattle.index.specs.Tabled.{Tabled};
ghost use Rattle.integration.specs.Passes.{located_keys, outside, pass_in, width, position_in};
ghost use Rattle.integration.specs.Placements.{placement_at, placement_of};

use woot::{Insert, Table};

// What is found for an insert: a neighbour is not held, they stand in the wrong order, there is no candidate, or the
// place just above it. It stays an enum of four: the first puts an insert off, and is no error.
#[derive(Clone, Copy)]
pub enum Placement {
    Missing,
    Crossed,
    Unplaceable,
    Below(usize),
}

// The places strictly between which a character is to be put.
#[derive(Clone, Copy)]
struct Interval {
    upper: usize,
    lower: usize,
}

// How far apart the ends are.
fn width(interval: Interval) -> usize
    ensures { result ≡ width interval }
{
    interval.lower.saturating_sub(interval.upper)
}

// Whether both neighbours of the character at the index stand outside the interval, or at its ends. They are compared
// with the characters beside it first, and the next is not sought where the previous stands inside.
fn outside<'a>(
    table: &'a Table,
    ids: &'a [u32],
    previous: &'a [u32],
    next: &'a [u32],
    end: usize,
    at: usize,
    interval: Interval,
) -> bool
    requires tabled { Tabled table.now ids.now }
    requires end_value { end ≡ place_in ids.now 1 }
    requires at_in_bounds { at < length previous.now }
    requires at_in_bounds_2 { at < length next.now }
    ensures { result
        ≡ outside (place_in ids.now (get_or previous.now at 0))
        (place_in ids.now (get_or next.now at 0)) interval }
{
    let above = index::place_near(table, ids, end, at, previous[at]);
    if interval.upper < above {
        return false;
    }
    let below = index::place_near(table, ids, end, at + 2, next[at]);
    interval.lower <= below
}

// One pass over the candidates: the interval between the last that the key passes and the one that it stops at.
fn pass<'a>(
    table: &'a Table,
    ids: &'a [u32],
    previous: &'a [u32],
    next: &'a [u32],
    end: usize,
    key: u32,
    interval: Interval,
) -> Interval
    requires tabled { Tabled table.now ids.now }
    requires end_value { end ≡ place_in ids.now 1 }
    requires ids_in_bounds { length ids.now ≤ length previous.now }
    requires ids_in_bounds_2 { length ids.now ≤ length next.now }
    requires upper_lt_lower { interval.upper < interval.lower }
    ensures { result
        ≡ pass_in (located_keys 1 ids.now (map (place_in ids.now) previous.now)
        (map (place_in ids.now) next.now)) key interval }
{
    let last = ids.len().min(interval.lower - 1);
    let mut upper = interval.upper;
    for i in interval.upper..last {
        if outside(table, ids, previous, next, end, i, interval) {
            if key <= ids[i] {
                return Interval {
                    upper,
                    lower: i + 1,
                };
            }
            upper = i + 1;
        }
    }
    Interval {
        upper,
        lower: interval.lower,
    }
}

// Where the key goes in, in the interval: just below a place, if there is one. Each pass narrows the interval, until
// nothing is between, or no candidate.
fn position<'a>(
    table: &'a Table,
    ids: &'a [u32],
    previous: &'a [u32],
    next: &'a [u32],
    end: usize,
    key: u32,
    interval: Interval,
) -> Placement
    requires tabled { Tabled table.now ids.now }
    requires end_value { end ≡ place_in ids.now 1 }
    requires ids_in_bounds { length ids.now ≤ length previous.now }
    requires ids_in_bounds_2 { length ids.now ≤ length next.now }
    ensures { result
        ≡ placement_at (position_in ids.now (map (place_in ids.now) previous.now)
        (map (place_in ids.now) next.now) key interval.upper interval.lower) }
{
    let mut v = interval;
    // It stays a while: each pass tells where the next begins, and no index is counted.
    while 1 < width(v) {
        let narrower = pass(table, ids, previous, next, end, key, v);
        if width(v) <= width(narrower) {
            return Placement::Unplaceable;
        }
        v = narrower;
    }
    Placement::Below(v.upper)
}

// Internal step: finds the place of an insert among n characters by their keys and those of their previous and next.
// The insert's own are compared with the last character, and with the one below its previous, before the table is
// asked. The calls lend arrays of n characters, and a table that they have checked, or made.
pub fn find_place<'a>(
    table: &'a Table,
    keys: &'a [u32],
    previous: &'a [u32],
    next: &'a [u32],
    n: usize,
    insert: Insert,
) -> Placement
    requires n_in_bounds { n ≤ length keys.now }
    requires n_in_bounds_2 { n ≤ length previous.now }
    requires n_in_bounds_3 { n ≤ length next.now }
    requires tabled { Tabled table.now (take n keys.now) }
    ensures { (cs : List Character)
        → take n keys.now ≡ keysOfCharacters cs → take n previous.now ≡ previous_keys cs
        → take n next.now ≡ next_keys cs → AllSmall cs → result ≡ placement_of cs insert }
{
    let ids = &keys[..n];
    let firsts = &previous[..n];
    let seconds = &next[..n];
    let first = insert.previous;
    let second = insert.next;
    let id = insert.id;
    let own = index::key(id);
    let end = index::place_of(table, ids, 1);
    let upper = index::place_near(table, ids, end, n, index::key(first));
    if n + 1 < upper {
        return Placement::Missing;
    }
    let lower = index::place_near(table, ids, end, upper + 1, index::key(second));
    if n + 1 < lower {
        return Placement::Missing;
    }
    if lower <= upper {
        return Placement::Crossed;
    }
    let between = Interval { upper, lower };
    position(table, ids, firsts, seconds, end, own, between)
}
