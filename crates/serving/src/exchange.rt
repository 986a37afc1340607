// What the calls do that list what a saved replica holds, and answer such a list. (Document 02, Req 09.)
ghost use Rattle.std.specs.Prelude.{[], ◌≡◌};
ghost use Rattle.effects.specs.Effects.{Leaves};
ghost use Rattle.c_calls.specs.Steps.{listing_here, answering_here};
ghost use Rattle.listing.specs.Calls.{list_read};
ghost use Rattle.c_calls.specs.Inputs.{first_beside};

use answers::Refusal;
use saved::Version;
use woot::Replica;

// The refusal of a saved replica, or that of the list handed with it where it comes earlier.
pub fn first_beside(refusal: Refusal, list: &[u8]) -> Refusal
    ensures { result ≡ first_beside refusal (list_read list.now) }
{
    match listing::judge(list) {
        Ok(_) => refusal,
        Err(other) => refusal.earlier(other),
    }
}

// Writes the list of what a saved replica holds.
pub fn list(bytes: &[u8], out: &mut [u8]) -> u64
    ensures { Leaves (listing_here bytes.now out.old) result out.new [] }
{
    let mut replica = Replica::empty(0);
    let answer = loading::read_into(Version::Second, bytes, &mut replica);
    match answer {
        Err(q) => effects::results::number_of_refusal(q),
        Ok(()) => { effects::written(catching::list_in(&replica, out)) }
    }
}

// Writes the lines with which a saved replica answers a list. The list is judged by itself only where the saved
// replica is refused: else answering reads it.
pub fn answer(bytes: &[u8], list: &[u8], out: &mut [u8]) -> u64
    ensures { Leaves (answering_here bytes.now list.now out.old)
        result out.new [] }
{
    let mut replica = Replica::empty(0);
    let answer = loading::read_into(Version::Second, bytes, &mut replica);
    match answer {
        Err(q) => {
            let earlier = first_beside(q, list);
            effects::results::number_of_refusal(earlier)
        }
        Ok(()) => { effects::written(catching::answer_in(&replica, list, out)) }
    }
}
