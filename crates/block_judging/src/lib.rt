// What is known of a block of text before a character of it is typed: what a replica's form, its clock and its room say
// of so many characters more, in the rule's order. (Document 02, Req 11.)
#![tactic(auto)]

ghost use Rattle.std.specs.Prelude.{◌≡◌, not, ◌+◌, ◌≤◌, eqb, ltb, length, take};
ghost use Rattle.lists.specs.Lists.{keep};
ghost use Rattle.woot.specs.Limits.{last_clock, capacity};
ghost use Rattle.woot.specs.Memory.{character_slots, pending_slots};
ghost use Rattle.memory.specs.Lent.{viewed, Full};
ghost use Rattle.block_judging.specs.Steps.{BlockJudged};

use answers::{Answer, Refusal};
use pending::counts;
use woot::{CHARACTERS, PENDING, Replica, Site};

// What is known of a block before a character of it is typed. It stays an enum: an empty block is answered well, so that
// a Result would call that an error.
#[derive(Clone, Copy)]
pub enum Judged {
    // It is refused, or empty.
    Answered(Answer),
    // The clock and the room are enough for it.
    Enough,
}

// Whether the clock cannot reach so many characters more.
fn clock_short(site: Site, count: usize) -> bool
    ensures { result ≡ ltb last_clock (site.clock + count) }
{
    let left = (65535 - site.clock) as usize;
    left < count
}

// Whether n characters, the inserts among the first w pending operations and so many characters more exceed a document.
fn overfull(n: usize, own: &[u32], w: usize, count: usize) -> bool
    requires n_le_character_slots { n ≤ character_slots }
    requires w_le_pending_slots { w ≤ pending_slots }
    requires w_in_bounds { w ≤ length own.now }
    ensures { result
        ≡ ltb capacity (n + length (keep (λ k. not (eqb k 0)) (take w own.now)) + count) }
{
    if CHARACTERS < count {
        return true;
    }
    CHARACTERS < n + counts::count_inserts(&own[..w]) + count
}

// Internal step: what is known of a block of so many characters, by the replica.
pub fn judge(replica: &Replica, point: usize, count: usize) -> Judged
    requires { Full replica.now }
    ensures { BlockJudged (viewed replica.now) point count result }
{
    if !well_formed::is_well_formed(replica) {
        return Judged::Answered(Answer::Refused(Refusal::Form));
    }
    let document = &replica.document;
    if visible::count(&document.toggles, document.length) < point {
        return Judged::Answered(Answer::Refused(Refusal::Position));
    }
    if clock_short(replica.site, count) {
        return Judged::Answered(Answer::Refused(Refusal::Clock));
    }
    if overfull(
        document.length,
        &document.pending[0..PENDING],
        document.waiting,
        count,
    ) {
        return Judged::Answered(Answer::Refused(Refusal::DocumentFull));
    }
    if count == 0 {
        return Judged::Answered(Answer::Done {
            integrated: 0,
            discarded: 0,
        });
    }
    Judged::Enough
}
