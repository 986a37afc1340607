// The form of the pending operations, but for their ranges: each sender's share, room for the inserts, that no
// identifier and no toggle stands twice, and that none has all it needs. The check of the form has seen that the
// replica's table agrees with the keys of the characters.
ghost use Rattle.std.specs.Prelude.{◌≡◌, ◌<◌, length};
ghost use Rattle.index.specs.Tabled.{Tabled};
ghost use Rattle.well_formed.specs.PendingForm.{shares_in, unheld_key, keys_new, fresh_at, none_repeated, none_ready};
ghost use Rattle.well_formed.specs.PendingForm.{pending_formed};

use pending::{counts, ready};
use woot::{CHARACTERS, Table};

// Whether no site has more than its share pending.
fn shares_kept<'a>(own: &'a [u32], values: &'a [u32]) -> bool
    ensures { result ≡ shares_in own.now values.now }
{
    for site in 1..=16 {
        if 32 < counts::count_sender(own, values, site) {
            return false;
        }
    }
    true
}

// Whether a key is a toggle's, or is not among those of the characters nor a mark's.
#[tactic(auto, unfolding(crate::specs::PendingForm::unheld_key))]
fn unheld<'a>(table: &'a Table, ids: &'a [u32], key: u32) -> bool
    requires { Tabled table.now ids.now }
    ensures { result ≡ unheld_key ids.now key }
{
    key == 0 || !ready::is_held(table, ids, key)
}

// The same among keys that have no table.
fn unseen(keys: &[u32], key: u32) -> bool
    ensures { result ≡ unheld_key keys.now key }
{
    if key == 0 {
        return true;
    }
    if key == 1 {
        return false;
    }
    match index::find(keys, key) {
        Some(_) => false,
        None => true,
    }
}

// Whether no pending insert's key is a character's or an earlier one's.
fn keys_new<'a>(table: &'a Table, ids: &'a [u32], own: &'a [u32]) -> bool
    requires { Tabled table.now ids.now }
    ensures { result ≡ keys_new ids.now own.now }
{
    for (j, key) in own.iter().enumerate() {
        if !unheld(table, ids, *key) {
            return false;
        }
        if !unseen(&own[..j], *key) {
            return false;
        }
    }
    true
}

// Whether an operation is an insert, or a toggle that is not pending before it.
fn fresh_at<'a>(own: &'a [u32], first: &'a [u32], values: &'a [u32], j: usize) -> bool
    requires j_in_bounds { j < length own.now }
    requires first_len { length first.now ≡ length own.now }
    requires values_len { length values.now ≡ length own.now }
    ensures { result ≡ fresh_at own.now first.now values.now j }
{
    own[j] != 0 || !counts::has_toggle(&own[..j], &first[..j], &values[..j], first[j], values[j])
}

// Whether no toggle is pending twice.
fn none_repeated<'a>(own: &'a [u32], first: &'a [u32], values: &'a [u32]) -> bool
    requires first_len { length first.now ≡ length own.now }
    requires values_len { length values.now ≡ length own.now }
    ensures { result ≡ none_repeated own.now first.now values.now }
{
    for j in 0..own.len() {
        if !fresh_at(own, first, values, j) {
            return false;
        }
    }
    true
}

// Whether no pending operation has all that it needs.
fn none_ready<'a>(table: &'a Table, ids: &'a [u32], first: &'a [u32], second: &'a [u32]) -> bool
    requires tabled { Tabled table.now ids.now }
    requires second_len { length second.now ≡ length first.now }
    ensures { result ≡ none_ready ids.now first.now second.now }
{
    match ready::ready(table, ids, first, second) {
        Some(_) => false,
        None => true,
    }
}

// Internal step: the conditions of form on the pending operations, but for their ranges. The check has a table of the
// characters' keys.
#[tactic(auto, unfolding(crate::specs::PendingForm::pending_formed, crate::specs::PendingForm::room_kept))]
pub fn pending_formed<'a>(
    table: &'a Table,
    ids: &'a [u32],
    own: &'a [u32],
    first: &'a [u32],
    second: &'a [u32],
    values: &'a [u32],
) -> bool
    requires tabled { Tabled table.now ids.now }
    requires first_len { length first.now ≡ length own.now }
    requires second_len { length second.now ≡ length own.now }
    requires values_len { length values.now ≡ length own.now }
    ensures { result
        ≡ pending_formed ids.now own.now first.now second.now
        values.now }
{
    shares_kept(own, values)
        && ids.len() + counts::count_inserts(own) <= CHARACTERS
        && keys_new(table, ids, own)
        && none_repeated(own, first, values)
        && none_ready(table, ids, first, second)
}
