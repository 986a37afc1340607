// Operations put as lines of text into a lent slice. What the lines are is said in `codec`.
#![tactic(auto)]

ghost use Rattle.std.specs.Prelude.{◌≡◌, cond, eqb, Ok, Err};
ghost use Rattle.output.specs.Output.{placed, past};
ghost use Rattle.lines.specs.Room.{room_for};
ghost use Rattle.codec.specs.Operations.{insert_numbers, toggle_numbers, operation_line};
ghost use Rattle.codec.specs.Calls.{written, written_out};

use answers::Refusal;
use codec::{INSERT, TOGGLE};
use woot::{Insert, Operation, Toggle};

// The numbers of an insert's line.
fn insert_numbers(insert: Insert) -> [u64; 7]
    ensures { result ≡ insert_numbers insert }
{
    [
        insert.id.site as u64,
        insert.id.clock as u64,
        insert.code_point as u64,
        insert.previous.site as u64,
        insert.previous.clock as u64,
        insert.next.site as u64,
        insert.next.clock as u64,
    ]
}

// The numbers of a toggle's line.
fn toggle_numbers(toggle: Toggle) -> [u64; 4]
    ensures { result ≡ toggle_numbers toggle }
{
    [
        toggle.sender as u64,
        toggle.target.site as u64,
        toggle.target.clock as u64,
        toggle.toggles as u64,
    ]
}

// Where the line of an operation, in range or not, ends that begins at the offset in a slice of the given size.
pub fn measure(operation: Operation, size: usize, at: usize) -> Option<usize>
    ensures { result ≡ room_for size at (operation_line operation) }
{
    match operation {
        Operation::Insert(insert) => {
            let head = [INSERT];
            let numbers = insert_numbers(insert);
            lines::writing::measure(&head, &numbers, size, at)
        }
        Operation::Toggle(toggle) => {
            let head = [TOGGLE];
            let numbers = toggle_numbers(toggle);
            lines::writing::measure(&head, &numbers, size, at)
        }
    }
}

// Puts the line of an operation into the slice at the offset, all of it or nothing, and answers the offset just past
// it.
pub fn put_operation(operation: Operation, out: &mut [u8], at: usize) -> usize
    ensures value { result ≡ past out.old at (operation_line operation) }
    ensures out_after { out.new ≡ placed out.old at (operation_line operation) }
{
    match operation {
        Operation::Insert(insert) => {
            let head = [INSERT];
            let numbers = insert_numbers(insert);
            lines::writing::put_line(&head, &numbers, out, at)
        }
        Operation::Toggle(toggle) => {
            let head = [TOGGLE];
            let numbers = toggle_numbers(toggle);
            lines::writing::put_line(&head, &numbers, out, at)
        }
    }
}

// What a writer answers that put bytes at the front of a slice, by the offset just past them: where there was no room
// for them, that did not move.
pub fn fitted(past: usize) -> Result<usize, Refusal>
    ensures { result ≡ cond (eqb past 0) (Err Refusal.Output) (Ok past) }
{
    if past == 0 {
        return Err(Refusal::Output);
    }
    Ok(past)
}

// Writes the line of an operation at the front of the slice. A refused call leaves every byte as it was.
pub fn write_operation(operation: Operation, out: &mut [u8]) -> Result<usize, Refusal>
    ensures value { result ≡ written operation out.old }
    ensures out_after { out.new ≡ written_out operation out.old }
{
    if !ranges::in_range(operation) {
        return Err(Refusal::Range);
    }
    fitted(put_operation(operation, out, 0))
}
