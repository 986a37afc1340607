// Saved replicas from one form to the other: the way forward reads the first form, and the way back writes it.
#![tactic(auto)]

ghost use Rattle.std.specs.Prelude.{◌≡◌, true, map, ◌≤◌, length, take, get_or};
ghost use Rattle.lists.specs.Lists.{every, throughout};
ghost use Rattle.woot.specs.Ranges.{in_range};
ghost use Rattle.woot.specs.State.{State};
ghost use Rattle.woot.specs.Memory.{toggle_counts, own_key, value_of, own_column, pending_numbers, pending_slots};
ghost use Rattle.woot.specs.Memory.{value_column};
ghost use Rattle.saved.specs.Format.{representable};
ghost use Rattle.saved.specs.Conversion.{converted, converted_out, upgraded, upgraded_out, downgraded, downgraded_out};
ghost use Rattle.conversion.specs.Columns.{count_within, numbers_within};

use answers::Refusal;
use saved::Version;
use woot::{PENDING, PENDING_NUMBERS, VALUES};

// Whether no count of the first n is above 1.
fn characters_within(toggles: &[u8], n: usize) -> bool
    requires { n ≤ length toggles.now }
    ensures { result ≡ throughout (λ i. count_within (get_or toggles.now i 0)) n }
{
    for i in 0..n {
        if 1 < toggles[i] {
            return false;
        }
    }
    true
}

// Whether the first form can say the pending operation with an own key and a value: a toggle's count is the value's low
// eight bits.
fn operation_within(own: u32, value: u32) -> bool
    ensures { result ≡ numbers_within own value }
{
    own != 0 || value % 256 <= 1
}

// Whether it can say each of the first w.
fn pending_within<'a>(own: &'a [u32], values: &'a [u32], w: usize) -> bool
    requires w_in_bounds { w ≤ length own.now }
    requires w_in_bounds_2 { w ≤ length values.now }
    ensures { result
        ≡ throughout (λ j. numbers_within (get_or own.now j 0) (get_or values.now j 0)) w }
{
    for j in 0..w {
        if !operation_within(own[j], values[j]) {
            return false;
        }
    }
    true
}

// Whether the first form can say a document: it has no count of toggles above 1.
fn within_first<'a>(toggles: &'a [u8], n: usize, pending: &'a [u32], w: usize) -> bool
    requires n_in_bounds { n ≤ length toggles.now }
    requires pending_len { length pending.now ≡ pending_numbers }
    requires w_le_pending_slots { w ≤ pending_slots }
    ensures { (s : State) → toggle_counts s.characters ≡ take n toggles.now
        → map own_key s.pending ≡ take w (own_column pending.now)
        → map value_of s.pending ≡ take w (value_column pending.now)
        → every in_range s.pending ≡ true → result ≡ representable Version.First s }
{
    characters_within(toggles, n)
        && pending_within(&pending[..PENDING], &pending[VALUES..PENDING_NUMBERS], w)
}

// Whether a form can say a document, of its lent arrays.
fn is_representable<'a>(
    version: Version,
    toggles: &'a [u8],
    n: usize,
    pending: &'a [u32],
    w: usize,
) -> bool
    requires n_in_bounds { n ≤ length toggles.now }
    requires pending_len { length pending.now ≡ pending_numbers }
    requires w_le_pending_slots { w ≤ pending_slots }
    ensures { (s : State) → toggle_counts s.characters ≡ take n toggles.now
        → map own_key s.pending ≡ take w (own_column pending.now)
        → map value_of s.pending ≡ take w (value_column pending.now)
        → every in_range s.pending ≡ true → result ≡ representable version s }
{
    match version {
        Version::First => within_first(toggles, n, pending, w),
        Version::Second => true,
    }
}

// Reads a saved replica in one form and writes it in the other. A refused call leaves every byte as it was.
fn convert(from: Version, to: Version, bytes: &[u8], out: &mut [u8]) -> Result<usize, Refusal>
    ensures value { result ≡ converted from to bytes.now out.old }
    ensures out_after { out.new ≡ converted_out from to bytes.now out.old }
{
    let found = loading::read_as(from, bytes);
    let answer = found.answer;
    if let Err(reason) = answer {
        return Err(reason);
    }
    let replica = found.replica;
    if !well_formed::is_well_formed(&replica) {
        return Err(Refusal::Form);
    }
    let document = &replica.document;
    if !is_representable(
        to,
        &document.toggles,
        document.length,
        &document.pending,
        document.waiting,
    ) {
        return Err(Refusal::Unrepresentable);
    }
    saving::write_replica(to, &replica, out)
}

// Writes in the second form what is saved in the first, its clock raised as in loading.
pub fn upgrade(bytes: &[u8], out: &mut [u8]) -> Result<usize, Refusal>
    ensures value { result ≡ upgraded bytes.now out.old }
    ensures out_after { out.new ≡ upgraded_out bytes.now out.old }
{
    convert(Version::First, Version::Second, bytes, out)
}

// Writes in the first form what is saved in the second, its clock raised as in loading.
pub fn downgrade(bytes: &[u8], out: &mut [u8]) -> Result<usize, Refusal>
    ensures value { result ≡ downgraded bytes.now out.old }
    ensures out_after { out.new ≡ downgraded_out bytes.now out.old }
{
    convert(Version::Second, Version::First, bytes, out)
}
