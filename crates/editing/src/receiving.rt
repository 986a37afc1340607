// What the calls do that receive a line.
ghost use Rattle.std.specs.Prelude.{[]};
ghost use Rattle.effects.specs.Effects.{Leaves};
ghost use Rattle.c_calls.specs.Steps.{receiving_line_at};

use crate::inputs;
use saved::Version;
use woot::Replica;

// Receives the operation of a line with a cursor at an insertion point, and writes the new saved replica. The shift
// goes into the last sixteen bits of what is returned. (Document 02, Req 02.)
pub fn receive_at(bytes: &[u8], line: &[u8], point: u64, out: &mut [u8]) -> u64
    ensures { Leaves (receiving_line_at bytes.now line.now point out.old)
        result out.new [] }
{
    let mut replica = Replica::empty(0);
    let answer = loading::read_into(Version::Second, bytes, &mut replica);
    let said = inputs::read_one(line);
    match said {
        Err(q) => effects::results::number_of_refusal(inputs::first_of(answer, q)),
        Ok(o) => match answer {
            Err(q) => effects::results::number_of_refusal(q),
            Ok(()) => { changing::receive_at(&mut replica, o, point as usize, out) }
        },
    }
}
