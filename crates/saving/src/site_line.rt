// Writing the first line of a saved replica in its form: where it ends, and then the line itself. The calls hand over
// its numbers one by one: in a struct a byte lies between them that nobody writes, and a compiler may compare all of
// it at once.
ghost use Rattle.std.specs.Prelude.{◌≡◌};
ghost use Rattle.output.specs.Output.{placed, past};
ghost use Rattle.lines.specs.Room.{room_for};
ghost use Rattle.saved.specs.Format.{site_numbers, site_line};
ghost use Rattle.saving.specs.Documents.{site_with};

use saved::Version;

// The numbers of the line of a site with this number and clock.
fn site_numbers_with(number: u8, clock: u16) -> [u64; 2]
    ensures { result ≡ site_numbers (site_with number clock) }
{
    [number as u64, clock as u64]
}

// Internal step: where the line of a site ends at the front of a slice of the given size.
pub fn measure_site_with(version: Version, number: u8, clock: u16, size: usize) -> Option<usize>
    ensures { result ≡ room_for size 0 (site_line version (site_with number clock)) }
{
    let numbers = site_numbers_with(number, clock);
    lines::writing::measure(version.site_head(), &numbers, size, 0)
}

// Internal step: puts the line of a site at the front of the slice, all of it or nothing, and answers the offset just
// past it.
pub fn put_site_with(version: Version, number: u8, clock: u16, out: &mut [u8]) -> usize
    ensures value { result ≡ past out.old 0 (site_line version (site_with number clock)) }
    ensures out_after { out.new ≡ placed out.old 0 (site_line version (site_with number clock)) }
{
    let numbers = site_numbers_with(number, clock);
    lines::writing::put_line(version.site_head(), &numbers, out, 0)
}
