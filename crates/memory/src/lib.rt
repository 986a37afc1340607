// A replica in memory: what the numbers of its arrays stand for, and the numbers of an operation. The definitions are
// in the specs of `woot`.
#![tactic(auto)]

ghost use Rattle.std.specs.Prelude.{◌≡◌, true, ◌<◌};
ghost use Rattle.woot.specs.Operations.{origin};
ghost use Rattle.woot.specs.Ranges.{in_range};
ghost use Rattle.woot.specs.Memory.{identifier, character_of, operation_of, own_key, first_key, second_key, value_of};

use woot::{Identifier, Insert, Operation, Toggle};

// Internal step: the identifier with a key. The calls have checked the ranges, so that a key has 24 bits.
#[tactic(auto, unfolding(woot::specs::Memory::identifier))]
pub fn identifier(key: u32) -> Identifier
    requires { key < 16777216 }
    ensures { result ≡ identifier key }
{
    Identifier {
        site: (key / 65536) as u8,
        clock: (key % 65536) as u16,
    }
}

// Internal step: the insert that brought the character with these numbers.
#[tactic(auto, unfolding(woot::specs::Operations::origin, woot::specs::Memory::character_of))]
pub fn insert(id: u32, previous: u32, next: u32, code_point: u32) -> Insert
    requires id_bound { id < 16777216 }
    requires previous_bound { previous < 16777216 }
    requires next_bound { next < 16777216 }
    ensures { result ≡ origin (character_of id previous next code_point 0) }
{
    Insert {
        id: identifier(id),
        code_point,
        previous: identifier(previous),
        next: identifier(next),
    }
}

// Internal step: the pending operation with these numbers.
pub fn operation(own: u32, first: u32, second: u32, value: u32) -> Operation
    requires { in_range (operation_of own first second value) ≡ true }
    ensures { result ≡ operation_of own first second value }
{
    if own == 0 {
        return Operation::Toggle(Toggle {
            sender: (value / 256) as u8,
            target: identifier(first),
            toggles: (value % 256) as u8,
        });
    }
    Operation::Insert(insert(own, first, second, value))
}

// The key of an insert, and 0 of a toggle.
#[tactic(auto, unfolding(woot::specs::Memory::own_key))]
pub fn own_key(operation: Operation) -> u32
    ensures { result ≡ own_key operation }
{
    match operation {
        Operation::Insert(i) => index::key(i.id),
        Operation::Toggle(_) => 0,
    }
}

// The key of an insert's previous, and of a toggle's target.
#[tactic(auto, unfolding(woot::specs::Memory::first_key))]
pub fn first_key(operation: Operation) -> u32
    ensures { result ≡ first_key operation }
{
    match operation {
        Operation::Insert(i) => index::key(i.previous),
        Operation::Toggle(t) => index::key(t.target),
    }
}

// The key of an insert's next, and 0 of a toggle.
#[tactic(auto, unfolding(woot::specs::Memory::second_key))]
pub fn second_key(operation: Operation) -> u32
    ensures { result ≡ second_key operation }
{
    match operation {
        Operation::Insert(i) => index::key(i.next),
        Operation::Toggle(_) => 0,
    }
}

// Who sends a toggle, and its count, as one number: two toggles of one character are the same where these are.
#[tactic(auto, unfolding(woot::specs::Memory::value_of))]
pub fn stamp(toggle: Toggle) -> u32
    ensures { result ≡ value_of (Operation.Toggle toggle) }
{
    toggle.sender as u32 * 256 + toggle.toggles as u32
}

// The code point of an insert, and the stamp of a toggle.
#[tactic(auto, unfolding(woot::specs::Memory::value_of))]
pub fn value_of(operation: Operation) -> u32
    ensures { result ≡ value_of operation }
{
    match operation {
        Operation::Insert(i) => i.code_point,
        Operation::Toggle(t) => stamp(t),
    }
}
