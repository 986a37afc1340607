// What inserting, deleting and restoring here come to, on a replica that is lent, before it is changed: a refusal, or an
// operation and where it goes. (Document 01: typing and erasing; document 02, Req 05: restoring.)
#![tactic(auto)]

ghost use Rattle.std.specs.Prelude.{◌≡◌, ◌+◌, ◌≤◌, ◌<◌, length, take};
ghost use Rattle.woot.specs.Limits.{last_clock, last_toggles};
ghost use Rattle.woot.specs.Calls.{next_identifier};
ghost use Rattle.woot.specs.Memory.{identifier};
ghost use Rattle.memory.specs.Lent.{viewed, Full};
ghost use Rattle.generation.specs.Decisions.{sent_in, InsertMade, DeleteMade, RestoreMade};

use answers::Refusal;
use index::table;
use integration::Placement;
use pending::counts;
use reception::Decision;
use woot::{
    CHARACTERS, CODE_POINTS, Identifier, Insert, NEXT_KEYS, Operation, PENDING, PREVIOUS_KEYS,
    Replica, Site, Toggle,
};

// Internal step: the insert that a site makes next, between the identifiers with two keys. The calls have looked at
// the clock and read the keys.
pub fn next_insert(site: Site, left: u32, right: u32, code_point: u32) -> Insert
    requires clock_lt_last_clock { site.clock < last_clock }
    requires left_bound { left < 16777216 }
    requires right_bound { right < 16777216 }
    ensures { result
        ≡ record {
          id = next_identifier site;
          code_point = code_point;
          previous = identifier left;
          next = identifier right;
        } }
{
    Insert {
        id: Identifier {
            site: site.number,
            clock: site.clock + 1,
        },
        code_point,
        previous: memory::identifier(left),
        next: memory::identifier(right),
    }
}

// An insert that was made here goes by its place, which is looked at before the room. Its neighbours are held and in
// order.
fn sent(
    n: usize,
    own: &[u32],
    w: usize,
    insert: Insert,
    placement: Placement,
) -> Result<(Operation, Decision), Refusal>
    requires { w ≤ length own.now }
    ensures { result ≡ sent_in n (take w own.now) insert placement }
{
    match placement {
        Placement::Missing => Err(Refusal::Unplaceable),
        Placement::Crossed => Err(Refusal::Unplaceable),
        Placement::Unplaceable => Err(Refusal::Unplaceable),
        Placement::Below(k) => {
            if counts::document_full(n, own, w) {
                return Err(Refusal::DocumentFull);
            }
            Ok((Operation::Insert(insert), Decision::Place(k)))
        }
    }
}

// Internal step: what inserting a code point at an insertion point among the visible characters comes to. The clock
// of a replica that is well formed reaches every identifier of the site's, so that the next one is nobody's (refusal
// 6).
pub fn decide_insert(
    replica: &Replica,
    point: usize,
    code_point: u32,
) -> Result<(Operation, Decision), Refusal>
    requires { Full replica.now }
    ensures { InsertMade (viewed replica.now) point code_point result }
{
    let document = &replica.document;
    if !ranges::code_point(code_point) {
        return Err(Refusal::Range);
    }
    if !well_formed::is_well_formed(replica) {
        return Err(Refusal::Form);
    }
    if visible::count(&document.toggles, document.length) < point {
        return Err(Refusal::Position);
    }
    if 65535 <= replica.site.clock {
        return Err(Refusal::Clock);
    }
    let ids = &document.characters[0..CHARACTERS];
    let left = visible::left(ids, &document.toggles, document.length, point);
    let right = visible::right(ids, &document.toggles, document.length, point);
    let insert = next_insert(replica.site, left, right, code_point);
    let previous = &document.characters[PREVIOUS_KEYS..NEXT_KEYS];
    let next = &document.characters[NEXT_KEYS..CODE_POINTS];
    let placement = integration::find_place(
        &document.table,
        ids,
        previous,
        next,
        document.length,
        insert,
    );
    sent(
        document.length,
        &document.pending[0..PENDING],
        document.waiting,
        insert,
        placement,
    )
}

// The toggle that a site makes of a character with so many.
fn next_toggle(site: Site, target: Identifier, toggles: u8) -> Toggle
    requires { toggles < last_toggles }
    ensures { result ≡ record { sender = site.number; target = target; toggles = toggles + 1 } }
{
    Toggle {
        sender: site.number,
        target,
        toggles: toggles + 1,
    }
}

// Internal step: what deleting the visible character at the place, counted from 1, comes to. Its count is even, so
// that there is a higher one.
pub fn decide_delete(replica: &Replica, place: usize) -> Result<(Operation, Decision), Refusal>
    requires { Full replica.now }
    ensures { DeleteMade (viewed replica.now) place result }
{
    let document = &replica.document;
    if !well_formed::is_well_formed(replica) {
        return Err(Refusal::Form);
    }
    if place == 0 {
        return Err(Refusal::Position);
    }
    match visible::nth(&document.toggles, document.length, place - 1) {
        Some(k) => {
            let ids = &document.characters[0..CHARACTERS];
            let target = memory::identifier(ids[k]);
            let toggle = next_toggle(replica.site, target, document.toggles[k]);
            Ok((Operation::Toggle(toggle), Decision::Toggle(k)))
        }
        None => Err(Refusal::Position),
    }
}

// Internal step: what restoring the hidden character with the identifier comes to.
pub fn decide_restore(replica: &Replica, id: Identifier) -> Result<(Operation, Decision), Refusal>
    requires { Full replica.now }
    ensures { RestoreMade (viewed replica.now) id result }
{
    let document = &replica.document;
    if !ranges::character_id(id) {
        return Err(Refusal::Range);
    }
    if !well_formed::is_well_formed(replica) {
        return Err(Refusal::Form);
    }
    let ids = &document.characters[0..CHARACTERS];
    match table::find_among(&document.table, ids, document.length, index::key(id)) {
        Some(k) => {
            let count = document.toggles[k];
            if count % 2 == 0 {
                return Err(Refusal::NotHidden);
            }
            if count == 255 {
                return Err(Refusal::LastToggle);
            }
            let toggle = next_toggle(replica.site, id, count);
            Ok((Operation::Toggle(toggle), Decision::Toggle(k)))
        }
        None => Err(Refusal::NotHidden),
    }
}
