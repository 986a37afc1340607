// The ranges of characters and of pending operations, on their numbers. Tests and loops have no way out, so that
// several characters are looked at at once.
ghost use Rattle.std.specs.Prelude.{◌≡◌, ◌&&◌, ◌||◌, ◌≤◌, length};
ghost use Rattle.lists.specs.Lists.{every};
ghost use Rattle.woot.specs.Operations.{origin};
ghost use Rattle.woot.specs.Ranges.{is_code_point, character_id, previous_id, next_id, insert_in_range, character_in_range};
ghost use Rattle.woot.specs.Ranges.{in_range};
ghost use Rattle.woot.specs.Memory.{identifier, character_of, characters_of, operation_of, operations_of};

// Whether a key is one of a character.
#[tactic(auto, using(crate::proofs::Ranging::key_ranged))]
fn character_key(k: u32) -> bool
    ensures { result ≡ character_id (identifier k) }
{
    (65536 <= k) & (k <= 1114111) & (k % 65536 != 0)
}

// Whether a number is a code point that may be inserted.
#[tactic(auto, using(crate::proofs::Ranging::code_ranged))]
fn code_point(n: u32) -> bool
    ensures { result ≡ is_code_point n }
{
    (n <= 1114111) & !((55296 <= n) & (n <= 57343))
}

// Whether a key may stand as previous.
#[tactic(auto, using(crate::proofs::Ranging::previous_ranged))]
fn previous_key(k: u32) -> bool
    ensures { result ≡ previous_id (identifier k) }
{
    (k == 0) | character_key(k)
}

// Whether a key may stand as next.
#[tactic(auto, using(crate::proofs::Ranging::next_ranged))]
fn next_key(k: u32) -> bool
    ensures { result ≡ next_id (identifier k) }
{
    (k == 1) | character_key(k)
}

// Whether refusal 2 lets the insert with these numbers pass.
#[tactic(auto, using(crate::proofs::Ranging::row_ranged))]
fn in_range(id: u32, previous: u32, next: u32, code: u32) -> bool
    ensures { result ≡ insert_in_range (origin (character_of id previous next code 0)) }
{
    let ranged = character_key(id) & code_point(code) & previous_key(previous) & next_key(next);
    ranged & (id != previous) & (id != next)
}

// Internal step: whether refusal 2 lets each of the first n characters pass. The calls lend arrays of these sizes.
pub fn characters_in_range<'a>(
    ids: &'a [u32],
    previous: &'a [u32],
    next: &'a [u32],
    codes: &'a [u32],
    toggles: &'a [u8],
    n: usize,
) -> bool
    requires n_in_bounds { n ≤ length ids.now }
    requires n_in_bounds_2 { n ≤ length previous.now }
    requires n_in_bounds_3 { n ≤ length next.now }
    requires n_in_bounds_4 { n ≤ length codes.now }
    ensures { result
        ≡ every character_in_range (characters_of ids.now previous.now next.now
        codes.now toggles.now n) }
{
    let mut kept = true;
    for i in 0..n {
        kept &= in_range(ids[i], previous[i], next[i], codes[i]);
    }
    kept
}

// Whether it lets the toggle with these numbers pass: it has no second key, and its sender and its count are in one
// number.
#[tactic(auto, using(crate::proofs::Ranging::toggle_ranged))]
fn toggle_in_range(first: u32, second: u32, value: u32) -> bool
    ensures { result ≡ in_range (operation_of 0 first second value) }
{
    let sent = (second == 0) & ((256 <= value) & (value < 4352));
    sent & (character_key(first) & (value % 256 != 0))
}

// Whether it lets the pending operation with these numbers pass.
#[tactic(auto, using(crate::proofs::Ranging::none_ranged, crate::proofs::Ranging::insert_ranged))]
fn operation_in_range(own: u32, first: u32, second: u32, value: u32) -> bool
    ensures { result ≡ in_range (operation_of own first second value) }
{
    if own == 0 {
        toggle_in_range(first, second, value)
    } else {
        in_range(own, first, second, value)
    }
}

// Internal step: whether refusal 2 lets each of the first w pending operations pass.
pub fn operations_in_range<'a>(
    own: &'a [u32],
    first: &'a [u32],
    second: &'a [u32],
    values: &'a [u32],
    w: usize,
) -> bool
    requires w_in_bounds { w ≤ length own.now }
    requires w_in_bounds_2 { w ≤ length first.now }
    requires w_in_bounds_3 { w ≤ length second.now }
    requires w_in_bounds_4 { w ≤ length values.now }
    ensures { result
        ≡ every in_range (operations_of own.now first.now second.now
        values.now w) }
{
    let mut kept = true;
    for j in 0..w {
        kept &= operation_in_range(own[j], first[j], second[j], values[j]);
    }
    kept
}
