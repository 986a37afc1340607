// Lines of numbers put into a lent slice: one measure and one writer serve every such line, whatever its head word and
// its numbers.
ghost use Rattle.std.specs.Prelude.{◌≡◌};
ghost use Rattle.output.specs.Output.{placed, past};
ghost use Rattle.lines.specs.Fields.{line_of};
ghost use Rattle.lines.specs.Room.{room_for};

use crate::{LINE_FEED, TAB};

// Where a line ends that begins at the offset in a slice of the given size, if there is room for it. The line is never
// measured apart from the slice, so no sum can wrap, however many numbers there are.
pub fn measure(head: &[u8], numbers: &[u64], size: usize, at: usize) -> Option<usize>
    ensures { result ≡ room_for size at (line_of head.now numbers.now) }
{
    if !output::has_room(size, at, head.len()) {
        return None;
    }
    let mut end = at + head.len();
    for &number in numbers {
        let count = decimal::width(number) + 1;
        if !output::has_room(size, end, count) {
            return None;
        }
        end += count;
    }
    if end < size {
        return Some(end + 1);
    }
    None
}

// Puts a line into the slice at the offset, all of it or nothing, and answers the offset just past it.
pub fn put_line(head: &[u8], numbers: &[u64], out: &mut [u8], at: usize) -> usize
    ensures value { result ≡ past out.old at (line_of head.now numbers.now) }
    ensures out_after { out.new
        ≡ placed out.old at (line_of head.now numbers.now) }
{
    let space = measure(head, numbers, out.len(), at);
    if let None = space {
        return at;
    }
    let mut end = output::put_all(out, at, head);
    for &number in numbers {
        end = output::put(out, end, TAB);
        end = decimal::write(number, out, end);
    }
    output::put(out, end, LINE_FEED)
}
