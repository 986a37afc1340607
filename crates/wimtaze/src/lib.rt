// The calls for programs in C: numbers and byte runs alone, and a saved replica in place of one in memory. Each returns
// one number, and the header says how to take it apart. What a call returns and leaves is said in specs/Calls, one case
// for each; the bodies stand by families in `editing` and `serving`.
#![tactic(auto)]

ghost use Rattle.std.specs.Prelude.{◌≡◌, []};
ghost use Rattle.effects.specs.Results.{number_of};
ghost use Rattle.effects.specs.Effects.{Leaves};
ghost use Rattle.woot.specs.Cursor.{moved_by};
ghost use Rattle.c_calls.specs.Calls.{effect_of, wimtaze_empty, wimtaze_receive, wimtaze_receive_at};
ghost use Rattle.c_calls.specs.Calls.{wimtaze_type, wimtaze_erase, wimtaze_restore, wimtaze_text};
ghost use Rattle.c_calls.specs.Calls.{wimtaze_paste, wimtaze_counts, wimtaze_upgrade, wimtaze_downgrade};
ghost use Rattle.c_calls.specs.Calls.{wimtaze_build, wimtaze_load, wimtaze_list, wimtaze_answer};
ghost use Rattle.c_calls.specs.Calls.{wimtaze_archive, wimtaze_unarchive};

use editing::{receiving, sending};
use serving::{exchange, sheets};

// Writes the empty replica of a site.
#[unsafe(no_mangle)]
pub extern "C" fn wimtaze_empty(number: u64, out: &mut [u8]) -> u64
    ensures { Leaves (effect_of (wimtaze_empty number) [] out.old []) result out.new [] }
{
    sheets::begin(number, out)
}

// Builds the replica of a site from a heap of lines, and writes it. How many operations were left out goes where other
// calls tell how many they threw out. (Document 02, Req 08.)
#[unsafe(no_mangle)]
pub extern "C" fn wimtaze_build(number: u64, heap: &[u8], out: &mut [u8]) -> u64
    ensures { Leaves (effect_of (wimtaze_build number heap.now) [] out.old [])
        result out.new [] }
{
    sheets::build(number, heap, out)
}

// Loads a saved replica for use: writes it as it is, its clock raised, if some sequence of received operations leaves
// its rows. (Document 02, Req 07.)
#[unsafe(no_mangle)]
pub extern "C" fn wimtaze_load(bytes: &[u8], out: &mut [u8]) -> u64
    ensures { Leaves (effect_of wimtaze_load bytes.now out.old [])
        result out.new [] }
{
    sheets::load(bytes, out)
}

// Writes the visible text of a saved replica.
#[unsafe(no_mangle)]
pub extern "C" fn wimtaze_text(bytes: &[u8], out: &mut [u8]) -> u64
    ensures { Leaves (effect_of wimtaze_text bytes.now out.old [])
        result out.new [] }
{
    sheets::show(bytes, out)
}

// Counts the visible characters, the pending operations and all the characters of a saved replica, and how many more it
// has room for.
#[unsafe(no_mangle)]
pub extern "C" fn wimtaze_counts(bytes: &[u8]) -> u64
    ensures { result ≡ number_of (effect_of wimtaze_counts bytes.now [] []).result }
{
    sheets::count(bytes)
}

// Writes the list of the characters that a saved replica holds. (Document 02, Req 09.)
#[unsafe(no_mangle)]
pub extern "C" fn wimtaze_list(bytes: &[u8], list_out: &mut [u8]) -> u64
    ensures { Leaves (effect_of wimtaze_list bytes.now list_out.old [])
        result list_out.new [] }
{
    exchange::list(bytes, list_out)
}

// Answers a list: writes the lines of the inserts that it lacks, each after what it needs, and then those of the
// toggles. (Document 02, Req 09.)
#[unsafe(no_mangle)]
pub extern "C" fn wimtaze_answer(bytes: &[u8], list: &[u8], lines_out: &mut [u8]) -> u64
    ensures { Leaves (effect_of (wimtaze_answer list.now) bytes.now
        lines_out.old []) result lines_out.new [] }
{
    exchange::answer(bytes, list, lines_out)
}

// Receives the operation of a line with a cursor at an insertion point, and writes the new saved replica. The shift
// goes into the last sixteen bits of what is returned. (Document 02, Req 02.)
#[unsafe(no_mangle)]
pub extern "C" fn wimtaze_receive_at(bytes: &[u8], line: &[u8], point: u64, out: &mut [u8]) -> u64
    ensures { Leaves (effect_of (wimtaze_receive_at line.now point) bytes.now
        out.old []) result out.new [] }
{
    receiving::receive_at(bytes, line, point, out)
}

// Receives the operation of a line, and writes the new saved replica: as with a cursor at the top, which stays there.
#[unsafe(no_mangle)]
pub extern "C" fn wimtaze_receive(bytes: &[u8], line: &[u8], out: &mut [u8]) -> u64
    ensures { Leaves (effect_of (wimtaze_receive line.now) bytes.now
        out.old [])
        result out.new [] }
{
    wimtaze_receive_at(bytes, line, 0, out)
}

// An insertion point moved by a shift: 0 where the sum is below 0, and the largest number where it is above that.
#[unsafe(no_mangle)]
pub extern "C" fn wimtaze_moved(point: u64, shift: i32) -> u64
    ensures { result ≡ moved_by point shift }
{
    cursor::moved(point as usize, shift) as u64
}

// Inserts a character, and writes the new saved replica and the line to be sent.
#[unsafe(no_mangle)]
pub extern "C" fn wimtaze_type(
    bytes: &[u8],
    point: u64,
    code_point: u32,
    out: &mut [u8],
    line_out: &mut [u8],
) -> u64
    ensures { Leaves (effect_of (wimtaze_type point code_point) bytes.now
        out.old line_out.old)
        result out.new line_out.new }
{
    sending::insert(bytes, point, code_point, out, line_out)
}

// Deletes a visible character, and writes the new saved replica and the line to be sent.
#[unsafe(no_mangle)]
pub extern "C" fn wimtaze_erase(
    bytes: &[u8],
    index: u64,
    out: &mut [u8],
    line_out: &mut [u8],
) -> u64
    ensures { Leaves (effect_of (wimtaze_erase index) bytes.now
        out.old line_out.old)
        result out.new line_out.new }
{
    sending::delete(bytes, index, out, line_out)
}

// Restores the hidden character that two numbers name, and writes the new saved replica and the line to be sent.
#[unsafe(no_mangle)]
pub extern "C" fn wimtaze_restore(
    bytes: &[u8],
    site: u64,
    clock: u64,
    out: &mut [u8],
    line_out: &mut [u8],
) -> u64
    ensures { Leaves (effect_of (wimtaze_restore site clock) bytes.now
        out.old line_out.old)
        result out.new line_out.new }
{
    sending::restore(bytes, site, clock, out, line_out)
}

// Pastes a block of text, and writes the new saved replica and the lines to be sent, one after another. (Document 02,
// Req 11.)
#[unsafe(no_mangle)]
pub extern "C" fn wimtaze_paste(
    bytes: &[u8],
    point: u64,
    text: &[u8],
    out: &mut [u8],
    lines_out: &mut [u8],
) -> u64
    ensures { Leaves (effect_of (wimtaze_paste point text.now) bytes.now
        out.old lines_out.old)
        result out.new lines_out.new }
{
    sending::paste(bytes, point, text, out, lines_out)
}

// Writes in the second form what is saved in the first.
#[unsafe(no_mangle)]
pub extern "C" fn wimtaze_upgrade(bytes: &[u8], out: &mut [u8]) -> u64
    ensures { Leaves (effect_of wimtaze_upgrade bytes.now out.old [])
        result out.new [] }
{
    effects::written(conversion::upgrade(bytes, out))
}

// Writes in the first form what is saved in the second.
#[unsafe(no_mangle)]
pub extern "C" fn wimtaze_downgrade(bytes: &[u8], out: &mut [u8]) -> u64
    ensures { Leaves (effect_of wimtaze_downgrade bytes.now out.old [])
        result out.new [] }
{
    effects::written(conversion::downgrade(bytes, out))
}

// Writes the archive of a saved replica: its characters by rising identifier, each with its place. (Document 02,
// Req 10.)
#[unsafe(no_mangle)]
pub extern "C" fn wimtaze_archive(bytes: &[u8], archive_out: &mut [u8]) -> u64
    ensures { Leaves (effect_of wimtaze_archive bytes.now archive_out.old [])
        result archive_out.new [] }
{
    effects::written(archiving::archive(bytes, archive_out))
}

// Writes the saved replica of an archive. (Document 02, Req 10.)
#[unsafe(no_mangle)]
pub extern "C" fn wimtaze_unarchive(archive: &[u8], out: &mut [u8]) -> u64
    ensures { Leaves (effect_of wimtaze_unarchive archive.now out.old [])
        result out.new [] }
{
    effects::written(archiving::unarchive(archive, out))
}
