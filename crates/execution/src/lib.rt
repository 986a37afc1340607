// A decision carried out: a replica is edited where it lies, and what was received is answered.
#![tactic(auto)]

ghost use Rattle.std.specs.Prelude.{◌≡◌, length};
ghost use Rattle.woot.specs.Memory.{character_numbers, pending_numbers};
ghost use Rattle.memory.specs.Lent.{viewed, Full};
ghost use Rattle.delivery.specs.Work.{SameLengths};
ghost use Rattle.reception.specs.Decisions.{Feasible};
ghost use Rattle.execution.specs.Outcomes.{left_by, left_in, answer_by};

use answers::Answer;
use delivery::Counts;
use reception::Decision;
use woot::{Operation, Replica};

// Nothing was carried out, and nothing discarded.
const NOTHING: Counts = Counts {
    integrated: 0,
    discarded: 0,
};

// Internal step: carries out what was decided on an operation: nothing where it is answered already, else it is put
// off, put in or its target toggled. The clock follows an insert that is put off or put in; what that releases raises
// it no further. The calls have looked at the replica and decided.
pub fn carry_out(replica: &mut Replica, operation: Operation, decision: Decision) -> Counts
    requires characters_len { length replica.old.document.characters ≡ character_numbers }
    requires pending_len { length replica.old.document.pending ≡ pending_numbers }
    requires feasible { Feasible (viewed replica.old) operation decision }
    ensures lengths { SameLengths replica.new.document replica.old.document }
    ensures full_after { Full replica.old → Full replica.new }
    ensures value { left_in replica.new result ≡ left_by (viewed replica.old) operation decision }
{
    match decision {
        Decision::Answered(_) => NOTHING,
        Decision::Defer => {
            replica.site = clock::heard_operation(replica.site, operation);
            delivery::defer(&mut replica.document, operation);
            NOTHING
        }
        Decision::Place(k) => match operation {
            Operation::Insert(i) => {
                let done = delivery::integrate(&mut replica.document, k, i);
                replica.site = clock::heard(replica.site, i);
                done
            }
            Operation::Toggle(_) => NOTHING,
        },
        Decision::Toggle(k) => match operation {
            Operation::Insert(_) => NOTHING,
            Operation::Toggle(t) => {
                delivery::toggle(&mut replica.document, k, t);
                Counts {
                    integrated: 1,
                    discarded: 0,
                }
            }
        },
    }
}

// Internal step: the answer to a received operation, once it was carried out.
pub fn answer(decision: Decision, counts: Counts) -> Answer
    ensures { result ≡ answer_by decision counts.integrated counts.discarded }
{
    match decision {
        Decision::Answered(answer) => answer,
        Decision::Defer => Answer::Deferred,
        Decision::Place(_) | Decision::Toggle(_) => Answer::Done {
            integrated: counts.integrated,
            discarded: counts.discarded,
        },
    }
}
