// The pending operations read, put behind the others and taken out, where their columns lie.
#![tactic(auto)]

ghost use Rattle.std.specs.Prelude.{◌≡◌, true, ◌≤◌, ◌<◌, length, take, set};
ghost use Rattle.lists.specs.Padding.{pad};
ghost use Rattle.slots.specs.Slots.{taken_at};
ghost use Rattle.woot.specs.Ranges.{in_range};
ghost use Rattle.woot.specs.Memory.{operation_at, own_key, first_key, second_key, value_of, first_column, own_column};
ghost use Rattle.woot.specs.Memory.{pending_numbers, pending_slots, second_column, value_column};

use woot::{FIRST_KEYS, Operation, PENDING, PENDING_NUMBERS, SECOND_KEYS, VALUES};

// Internal step: the pending operation in a slot. The calls have checked the ranges.
pub fn operation_at(pending: &[u32], j: usize) -> Operation
    requires pending_len { length pending.now ≡ pending_numbers }
    requires j_lt_pending_slots { j < pending_slots }
    requires j_value { in_range (operation_at (own_column pending.now) (first_column pending.now)
        (second_column pending.now) (value_column pending.now) j) ≡ true }
    ensures { result
        ≡ operation_at (own_column pending.now) (first_column pending.now)
        (second_column pending.now) (value_column pending.now) j }
{
    memory::operation(
        pending[j],
        pending[FIRST_KEYS + j],
        pending[SECOND_KEYS + j],
        pending[VALUES + j],
    )
}

// Internal step: puts an operation into the slot behind the first w. The calls have checked that there is one.
pub fn push(pending: &mut [u32], w: usize, operation: Operation)
    requires w_lt_pending_slots { w < pending_slots }
    requires pending_len { length pending.old ≡ pending_numbers }
    ensures pending_after { own_column pending.new
        ≡ set (own_column pending.old) w (own_key operation) }
    ensures pending_after_2 { first_column pending.new
        ≡ set (first_column pending.old) w (first_key operation) }
    ensures pending_after_3 { second_column pending.new
        ≡ set (second_column pending.old) w (second_key operation) }
    ensures pending_after_4 { value_column pending.new
        ≡ set (value_column pending.old) w (value_of operation) }
{
    slots::set(&mut pending[..PENDING], w, memory::own_key(operation));
    slots::set(
        &mut pending[FIRST_KEYS..SECOND_KEYS],
        w,
        memory::first_key(operation),
    );
    slots::set(
        &mut pending[SECOND_KEYS..VALUES],
        w,
        memory::second_key(operation),
    );
    slots::set(
        &mut pending[VALUES..PENDING_NUMBERS],
        w,
        memory::value_of(operation),
    );
}

// Internal step: takes the operation in a slot out of the first w. The calls have found it there.
pub fn remove(pending: &mut [u32], w: usize, j: usize)
    requires j_lt_w { j < w }
    requires w_le_pending_slots { w ≤ pending_slots }
    requires pending_len { length pending.old ≡ pending_numbers }
    ensures pending_after { own_column pending.new
        ≡ taken_at w j 0 (own_column pending.old) }
    ensures pending_after_2 { first_column pending.new
        ≡ taken_at w j 0 (first_column pending.old) }
    ensures pending_after_3 { second_column pending.new
        ≡ taken_at w j 0 (second_column pending.old) }
    ensures pending_after_4 { value_column pending.new
        ≡ taken_at w j 0 (value_column pending.old) }
{
    slots::remove(&mut pending[..PENDING], w, j, 0);
    slots::remove(&mut pending[FIRST_KEYS..SECOND_KEYS], w, j, 0);
    slots::remove(&mut pending[SECOND_KEYS..VALUES], w, j, 0);
    slots::remove(&mut pending[VALUES..PENDING_NUMBERS], w, j, 0);
}

// Internal step: the first w stay, and every slot behind them is 0. The calls have compared the count.
pub fn clear(pending: &mut [u32], w: usize)
    requires w_le_pending_slots { w ≤ pending_slots }
    requires pending_len { length pending.old ≡ pending_numbers }
    ensures pending_after { own_column pending.new
        ≡ pad pending_slots 0 (take w (own_column pending.old)) }
    ensures pending_after_2 { first_column pending.new
        ≡ pad pending_slots 0 (take w (first_column pending.old)) }
    ensures pending_after_3 { second_column pending.new
        ≡ pad pending_slots 0 (take w (second_column pending.old)) }
    ensures pending_after_4 { value_column pending.new
        ≡ pad pending_slots 0 (take w (value_column pending.old)) }
{
    slots::clear(&mut pending[..PENDING], w, 0);
    slots::clear(&mut pending[FIRST_KEYS..SECOND_KEYS], w, 0);
    slots::clear(&mut pending[SECOND_KEYS..VALUES], w, 0);
    slots::clear(&mut pending[VALUES..PENDING_NUMBERS], w, 0);
}
