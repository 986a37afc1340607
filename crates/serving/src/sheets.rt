// What the calls do that begin a replica or read one: an empty one is saved, or one that is built from a heap, a saved
// one is loaded for use, its visible text is written, and what it holds is counted.
ghost use Rattle.std.specs.Prelude.{◌≡◌, []};
ghost use Rattle.memory.specs.Lent.{Full};
ghost use Rattle.effects.specs.Results.{number_of};
ghost use Rattle.effects.specs.Effects.{Leaves};
ghost use Rattle.c_calls.specs.Steps.{beginning, building_here, loading_here, replica_used, showing_text, counting};

use answers::{Answer, Refusal};
use saved::Version;
use woot::Replica;

// Writes the empty replica of a site.
pub fn begin(number: u64, out: &mut [u8]) -> u64
    ensures { Leaves (beginning number out.old) result out.new [] }
{
    if number < 1 {
        return effects::results::number_of_refusal(Refusal::Range);
    }
    if 16 < number {
        return effects::results::number_of_refusal(Refusal::Range);
    }
    let none = Answer::Done {
        integrated: 0,
        discarded: 0,
    };
    effects::save(none, Replica::empty(number as u8), out)
}

// Builds the replica of a site from a heap, and writes it. (Document 02, Req 08.)
pub fn build(number: u64, heap: &[u8], out: &mut [u8]) -> u64
    ensures { Leaves (building_here number heap.now out.old) result out.new [] }
{
    let built = building::build(number, heap);
    let answer = built.answer;
    if !answer.is_change() {
        return effects::results::number_of(answer, 0, 0);
    }
    let replica = built.replica;
    effects::save(answer, replica, out)
}

// Writes a replica that was read, where it may be used. A step of loading, which has read the replica.
fn save_admitted(replica: Replica, out: &mut [u8]) -> u64
    ensures { Leaves (replica_used replica out.old) result out.new [] }
{
    let admitted = admission::admit(replica);
    let answer = admitted.answer;
    if !answer.is_change() {
        return effects::results::number_of(answer, 0, 0);
    }
    let same = admitted.replica;
    effects::save(answer, same, out)
}

// Internal step: the same of a replica that is lent. Loading has read it.
fn save_admitted_in(replica: &Replica, out: &mut [u8]) -> u64
    requires { Full replica.now }
    ensures { Leaves (replica_used replica.now out.old) result out.new [] }
{
    let answer = admission::judge(replica);
    if !answer.is_change() {
        return effects::results::number_of(answer, 0, 0);
    }
    effects::save_noted(answer, 0, replica, out)
}

// Loads a saved replica for use, and writes it. (Document 02, Req 07.)
pub fn load(bytes: &[u8], out: &mut [u8]) -> u64
    ensures { Leaves (loading_here bytes.now out.old) result out.new [] }
{
    let mut replica = Replica::empty(0);
    let answer = loading::read_into(Version::Second, bytes, &mut replica);
    match answer {
        Err(q) => effects::results::number_of_refusal(q),
        Ok(()) => { save_admitted_in(&replica, out) }
    }
}

// Writes the visible text of a saved replica.
pub fn show(bytes: &[u8], out: &mut [u8]) -> u64
    ensures { Leaves (showing_text bytes.now out.old) result out.new [] }
{
    let mut replica = Replica::empty(0);
    let answer = loading::read_into(Version::Second, bytes, &mut replica);
    match answer {
        Err(q) => effects::results::number_of_refusal(q),
        Ok(()) => { effects::show_in(&replica, out) }
    }
}

// Counts the visible characters, the pending operations and all the characters of a saved replica, and how many more it
// has room for.
pub fn count(bytes: &[u8]) -> u64
    ensures { result ≡ number_of (counting bytes.now) }
{
    let mut replica = Replica::empty(0);
    let answer = loading::read_into(Version::Second, bytes, &mut replica);
    match answer {
        Err(q) => effects::results::number_of_refusal(q),
        Ok(()) => { effects::counting::count_in(&replica) }
    }
}
