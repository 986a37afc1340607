// What the calls do that make operations here and give their lines: inserting, deleting, restoring and pasting.
ghost use Rattle.effects.specs.Effects.{Leaves};
ghost use Rattle.c_calls.specs.Steps.{inserting_here, deleting_here, restoring_here, pasting_here};

use crate::inputs;
use answers::Refusal;
use saved::Version;
use woot::{CHARACTER_NUMBERS, Replica};

// Inserts a character, and writes the new saved replica and the line to be sent.
pub fn insert(bytes: &[u8], point: u64, code_point: u32, out: &mut [u8], line_out: &mut [u8]) -> u64
    ensures { Leaves (inserting_here bytes.now point code_point
        out.old line_out.old)
        result out.new line_out.new }
{
    let mut replica = Replica::empty(0);
    let answer = loading::read_into(Version::Second, bytes, &mut replica);
    if !ranges::code_point(code_point) {
        return effects::results::number_of_refusal(inputs::first_of(answer, Refusal::Range));
    }
    match answer {
        Err(q) => effects::results::number_of_refusal(q),
        Ok(()) => { changing::insert(&mut replica, point as usize, code_point, out, line_out) }
    }
}

// Deletes a visible character, and writes the new saved replica and the line to be sent.
pub fn delete(bytes: &[u8], index: u64, out: &mut [u8], line_out: &mut [u8]) -> u64
    ensures { Leaves (deleting_here bytes.now index out.old line_out.old)
        result out.new line_out.new }
{
    let mut replica = Replica::empty(0);
    let answer = loading::read_into(Version::Second, bytes, &mut replica);
    match answer {
        Err(q) => effects::results::number_of_refusal(q),
        Ok(()) => { changing::delete(&mut replica, index as usize, out, line_out) }
    }
}

// Restores the hidden character that two numbers name, and writes the new saved replica and the line to be sent.
pub fn restore(bytes: &[u8], site: u64, clock: u64, out: &mut [u8], line_out: &mut [u8]) -> u64
    ensures { Leaves (restoring_here bytes.now site clock
        out.old line_out.old)
        result out.new line_out.new }
{
    let mut replica = Replica::empty(0);
    let answer = loading::read_into(Version::Second, bytes, &mut replica);
    if !inputs::names_character(site, clock) {
        return effects::results::number_of_refusal(inputs::first_of(answer, Refusal::Range));
    }
    match answer {
        Err(q) => effects::results::number_of_refusal(q),
        Ok(()) => {
            let id = codec::identifier(site, clock);
            changing::restore(&mut replica, id, out, line_out)
        }
    }
}

// Pastes a block of text, and writes the new saved replica and the lines to be sent. (Document 02, Req 11.)
pub fn paste(bytes: &[u8], point: u64, block: &[u8], out: &mut [u8], lines_out: &mut [u8]) -> u64
    ensures { Leaves (pasting_here bytes.now point block.now
        out.old lines_out.old)
        result out.new lines_out.new }
{
    let mut replica = Replica::empty(0);
    let answer = loading::read_into(Version::Second, bytes, &mut replica);
    match answer {
        Err(q) => effects::results::number_of_refusal(q),
        Ok(()) => {
            let mut typed = [0u32; CHARACTER_NUMBERS];
            let pasted = pasting::paste_into(replica, point as usize, block, &mut typed);
            let answer = pasted.answer;
            let after = pasted.replica;
            changing::send_lines(answer, after, &typed, pasted.count, out, lines_out)
        }
    }
}
