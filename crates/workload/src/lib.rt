// The operations that bench/ times, received on an empty replica: inserts of sixteen sites in turn, and then a delete
// of each character.
#![tactic(auto)]

ghost use Rattle.std.specs.Prelude.{◌≡◌, ◌+◌, ◌≤◌, ◌<◌, min};
ghost use Rattle.workload.specs.Workload.{
  identifier_of,
  previous_of,
  insert_of,
  delete_of,
  operation_of,
  one_if_done,
  carried_out,
};

use answers::Answer;
use woot::{Identifier, Insert, Operation, Replica, Toggle};

// The identifier of the k-th character.
#[tactic(auto, unfolding(crate::specs::Workload::identifier_of))]
fn identifier(k: u16) -> Identifier
    requires { k < 1024 }
    ensures { result ≡ identifier_of k }
{
    Identifier::new((k % 16 + 1) as u8, k / 16 + 1)
}

// What the k-th character stands after: the one before it, and each fourth the begin mark.
#[tactic(auto, unfolding(crate::specs::Workload::previous_of))]
fn previous(k: u16) -> Identifier
    requires { k < 1024 }
    ensures { result ≡ previous_of k }
{
    if k % 4 == 0 {
        Identifier::BEGIN
    } else {
        identifier(k - 1)
    }
}

// The k-th insert.
#[tactic(auto, unfolding(crate::specs::Workload::insert_of))]
fn insert(k: u16) -> Operation
    requires { k < 1024 }
    ensures { result ≡ insert_of k }
{
    Operation::Insert(Insert {
        id: identifier(k),
        code_point: 97 + (k % 26) as u32,
        previous: previous(k),
        next: Identifier::END,
    })
}

// The delete of the k-th character: its first toggle.
#[tactic(auto, unfolding(crate::specs::Workload::delete_of))]
fn delete(k: u16) -> Operation
    requires { k < 1024 }
    ensures { result ≡ delete_of k }
{
    Operation::Toggle(Toggle {
        sender: (k % 16 + 1) as u8,
        target: identifier(k),
        toggles: 1,
    })
}

// The k-th operation on `rows` characters: their inserts, and then their deletes.
#[tactic(auto, unfolding(crate::specs::Workload::operation_of))]
fn operation(rows: u16, k: u16) -> Operation
    requires rows_bound { rows ≤ 1024 }
    requires k_bound { k < rows + rows }
    ensures { result ≡ operation_of rows k }
{
    if k < rows {
        insert(k)
    } else {
        delete(k - rows)
    }
}

// 1 where the operation was carried out.
#[tactic(auto, unfolding(crate::specs::Workload::one_if_done))]
fn one_if_done(answer: Answer) -> u64
    ensures { result ≡ one_if_done answer }
{
    match answer {
        Answer::Done { .. } => 1,
        Answer::Deferred | Answer::Duplicate | Answer::Refused(_) => 0,
    }
}

// As many as there are slots for, where it is more.
fn within(rows: u64) -> u16
    ensures { result ≡ min rows 1024 }
{
    rows.min(1024) as u16
}

// Receives the first `rows` inserts on an empty replica of site 16, 1,024 at most, and then the deletes of the same
// characters, and answers how many of them were carried out. The one call of `replica::receive` stands in the loop: a
// function between would copy the replica at each call, and that would be timed too.
#[unsafe(no_mangle)]
pub extern "C" fn workload_run(rows: u64) -> u64
    ensures { result ≡ carried_out rows }
{
    let n = within(rows);
    let mut replica = Replica::empty(16);
    let mut count: u64 = 0;
    for k in 0..n + n {
        let receipt = replica::receive(replica, operation(n, k));
        let answer = receipt.answer;
        replica = receipt.replica;
        count += one_if_done(answer);
    }
    count
}
