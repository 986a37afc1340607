// Counts and searches among the pending operations, and whether there is room for one more, on their numbers.
ghost use Rattle.std.specs.Prelude.{◌≡◌, not, ◌&&◌, ◌+◌, ◌≤◌, leb, eqb, length, take};
ghost use Rattle.lists.specs.Lists.{keep};
ghost use Rattle.woot.specs.Limits.{capacity, share};
ghost use Rattle.pending.specs.Counts.{sender_of, senders_of, has_toggle};

use woot::CHARACTERS;

// Who sends the operation with its own key and its value: an insert's key has the site above the clock, a toggle's
// value the sender above the count.
#[tactic(auto, unfolding(crate::specs::Counts::sender_of))]
pub fn sender_of(own: u32, value: u32) -> u32
    ensures { result ≡ sender_of own value }
{
    if own == 0 { value / 256 } else { own / 65536 }
}

// How many of the operations have the sender. There are as many as the shorter slice has.
pub fn count_sender<'a>(own: &'a [u32], values: &'a [u32], sender: u32) -> usize
    ensures { result
        ≡ length (keep (λ s. eqb s sender) (senders_of own.now values.now)) }
{
    let end = own.len().min(values.len());
    let mut count = 0;
    for i in 0..end {
        if sender_of(own[i], values[i]) == sender {
            count += 1;
        }
    }
    count
}

// How many of the operations are inserts.
pub fn count_inserts(own: &[u32]) -> usize
    ensures { result ≡ length (keep (λ k. not (eqb k 0)) own.now) }
{
    own.iter().filter(|key| **key != 0).count()
}

// Whether the numbers of an operation are those of a toggle of the key with the stamp.
fn is_toggle(own: u32, first: u32, value: u32, key: u32, stamp: u32) -> bool
    ensures { result ≡ eqb own 0 && (eqb stamp value && eqb key first) }
{
    own == 0 && stamp == value && key == first
}

// Whether one of the operations is a toggle of the key with the stamp. There are as many as the shortest slice has.
pub fn has_toggle<'a>(
    own: &'a [u32],
    first: &'a [u32],
    values: &'a [u32],
    key: u32,
    stamp: u32,
) -> bool
    ensures { result ≡ has_toggle key stamp own.now first.now values.now }
{
    let end = own.len().min(first.len().min(values.len()));
    for i in 0..end {
        if is_toggle(own[i], first[i], values[i], key, stamp) {
            return true;
        }
    }
    false
}

// Internal step: whether the sender has its full share among the first w operations. The calls lend arrays of this
// size.
pub fn sender_full<'a>(own: &'a [u32], values: &'a [u32], w: usize, sender: u32) -> bool
    requires w_in_bounds { w ≤ length own.now }
    requires w_in_bounds_2 { w ≤ length values.now }
    ensures { result
        ≡ leb share (length (keep (λ s. eqb s sender)
        (senders_of (take w own.now) (take w values.now)))) }
{
    32 <= count_sender(&own[..w], &values[..w], sender)
}

// Internal step: whether n characters and the inserts among the first w operations fill a document.
pub fn document_full(n: usize, own: &[u32], w: usize) -> bool
    requires { w ≤ length own.now }
    ensures { result ≡ leb capacity (n + length (keep (λ k. not (eqb k 0)) (take w own.now))) }
{
    CHARACTERS <= n || CHARACTERS - n <= count_inserts(&own[..w])
}
