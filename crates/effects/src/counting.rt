// How much a replica holds, as the number that a call for C returns: its visible characters, its pending operations,
// all its characters, and how many more it has room for.
ghost use Rattle.std.specs.Prelude.{◌≡◌, List, ◌≤◌, length, take};
ghost use Rattle.woot.specs.declared.Character.{Character};
ghost use Rattle.woot.specs.Memory.{toggle_counts, character_slots};
ghost use Rattle.memory.specs.Lent.{Full};
ghost use Rattle.effects.specs.Results.{number_of};
ghost use Rattle.effects.specs.Counting.{present_by, counts_in, counts_left};

use crate::results;
use answers::{Answer, Refusal};
use pending::counts;
use woot::{CHARACTERS, Replica};

// The counts of a replica whose characters have these toggles, and its first w pending operations these keys of their
// own, 0 of a toggle. A pending insert has its place kept, so the room is what is left beside it.
fn counts_of<'a>(toggles: &'a [u8], n: usize, own: &'a [u32], w: usize) -> u64
    requires n_in_bounds { n ≤ length toggles.now }
    requires w_in_bounds { w ≤ length own.now }
    requires own_bound { present_by n (take w own.now) ≤ character_slots }
    ensures { (cs : List Character) → toggle_counts cs ≡ take n toggles.now
        → result ≡ number_of (counts_in cs n (take w own.now) w) }
{
    let present = n + counts::count_inserts(&own[..w]);
    let room = CHARACTERS - present;
    let shown = visible::count(toggles, n);
    let counts = Answer::Done {
        integrated: shown,
        discarded: w,
    };
    results::number_of(counts, n, room)
}

// Counts what the replica holds.
pub fn count(replica: Replica) -> u64
    ensures { result ≡ number_of (counts_left replica) }
{
    count_in(&replica)
}

// Internal step: the same of a replica that is lent.
pub fn count_in(replica: &Replica) -> u64
    requires { Full replica.now }
    ensures { result ≡ number_of (counts_left replica.now) }
{
    if !well_formed::is_well_formed(replica) {
        return results::number_of_refusal(Refusal::Form);
    }
    let document = &replica.document;
    counts_of(
        &document.toggles,
        document.length,
        &document.pending,
        document.waiting,
    )
}
