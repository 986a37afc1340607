// The check of a replica's form, on lent arrays of numbers. The ranges are checked first; then no character has a
// mark's key, and what the numbers stand for is what they were made of. Once the replica's table is seen to agree with
// the keys, no key stands twice, and every other key is found by it.
#![tactic(auto)]

pub mod clock;
pub mod numbers;
pub mod order;
pub mod waiting;

ghost use Rattle.std.specs.Prelude.{◌≡◌, ◌&&◌, ◌≤◌, length, take};
ghost use Rattle.woot.specs.Memory.{characters_of, operations_of, character_numbers, pending_numbers, pending_slots};
ghost use Rattle.woot.specs.Memory.{key_column, previous_column, next_column, code_point_column};
ghost use Rattle.woot.specs.Memory.{own_column, first_column, second_column, value_column};
ghost use Rattle.memory.specs.Columns.{replica_well_formed};
ghost use Rattle.memory.specs.Lent.{replica_as, viewed, Full, Sized};
ghost use Rattle.index.specs.Tabled.{Tabled};
ghost use Rattle.well_formed.specs.Form.{ranges_kept, clock_reached};
ghost use Rattle.well_formed.specs.PendingForm.{pending_formed};

use index::table;
use woot::{
    CHARACTER_NUMBERS, CHARACTERS, CODE_POINTS, FIRST_KEYS, NEXT_KEYS, PENDING, PENDING_NUMBERS,
    PREVIOUS_KEYS, Replica, SECOND_KEYS, Site, Table, VALUES,
};

// Whether the counts are within the arrays, and refusal 2 would let every number, mark and neighbour pass.
#[tactic(auto, unfolding(crate::specs::Form::ranges_kept))]
fn in_ranges<'a>(
    site: Site,
    characters: &'a [u32],
    toggles: &'a [u8],
    n: usize,
    pending: &'a [u32],
    w: usize,
) -> bool
    requires characters_len { length characters.now ≡ character_numbers }
    requires pending_len { length pending.now ≡ pending_numbers }
    ensures { result
        ≡ ranges_kept site n (characters_of (key_column characters.now)
        (previous_column characters.now) (next_column characters.now)
        (code_point_column characters.now) toggles.now n)
        w (operations_of (own_column pending.now) (first_column pending.now)
        (second_column pending.now) (value_column pending.now) w) }
{
    if CHARACTERS < n || PENDING < w {
        return false;
    }
    ranges::site_in_range(site)
        && numbers::characters_in_range(
            &characters[0..CHARACTERS],
            &characters[PREVIOUS_KEYS..NEXT_KEYS],
            &characters[NEXT_KEYS..CODE_POINTS],
            &characters[CODE_POINTS..CHARACTER_NUMBERS],
            toggles,
            n,
        )
        && numbers::operations_in_range(
            &pending[0..PENDING],
            &pending[FIRST_KEYS..SECOND_KEYS],
            &pending[SECOND_KEYS..VALUES],
            &pending[VALUES..PENDING_NUMBERS],
            w,
        )
}

// The conditions on w pending operations, with n characters, and that the clock reaches the inserts of both.
fn queue_formed<'a>(
    site: Site,
    table: &'a Table,
    ids: &'a [u32],
    n: usize,
    pending: &'a [u32],
    w: usize,
) -> bool
    requires n_in_bounds { n ≤ length ids.now }
    requires pending_len { length pending.now ≡ pending_numbers }
    requires w_le_pending_slots { w ≤ pending_slots }
    requires tabled { Tabled table.now (take n ids.now) }
    ensures { result
        ≡ pending_formed (take n ids.now) (take w (own_column pending.now))
        (take w (first_column pending.now)) (take w (second_column pending.now))
        (take w (value_column pending.now))
        && clock_reached site (take n ids.now) (take w (own_column pending.now)) }
{
    let own = &pending[0..PENDING];
    let first = &pending[FIRST_KEYS..SECOND_KEYS];
    let second = &pending[SECOND_KEYS..VALUES];
    let values = &pending[VALUES..PENDING_NUMBERS];
    waiting::pending_formed(
        table,
        &ids[..n],
        &own[..w],
        &first[..w],
        &second[..w],
        &values[..w],
    ) && clock::reaches_all(site, ids, n)
        && clock::reaches_all(site, own, w)
}

// Internal step: whether the replica with these arrays is in form. The calls lend a replica's arrays, which have
// these sizes.
pub fn check<'a>(
    site: Site,
    characters: &'a [u32],
    toggles: &'a [u8],
    n: usize,
    pending: &'a [u32],
    w: usize,
    table: &'a Table,
) -> bool
    requires { Sized characters.now toggles.now pending.now table.now.heads table.now.links }
    ensures { result
        ≡ replica_well_formed (replica_as site characters.now toggles.now n
        pending.now w table.now.heads table.now.links) }
{
    if !in_ranges(site, characters, toggles, n, pending, w) {
        return false;
    }
    let ids = &characters[0..CHARACTERS];
    if !table::agrees_among(table, ids, n) {
        return false;
    }
    let previous = &characters[PREVIOUS_KEYS..NEXT_KEYS];
    let next = &characters[NEXT_KEYS..CODE_POINTS];
    if !order::characters_ordered(table, ids, previous, next, n) {
        return false;
    }
    queue_formed(site, table, ids, n, pending, w)
}

// Internal step: whether a replica is in form.
pub fn is_well_formed(replica: &Replica) -> bool
    requires { Full replica.now }
    ensures { result ≡ replica_well_formed (viewed replica.now) }
{
    check(
        replica.site,
        &replica.document.characters,
        &replica.document.toggles,
        replica.document.length,
        &replica.document.pending,
        replica.document.waiting,
        &replica.document.table,
    )
}
