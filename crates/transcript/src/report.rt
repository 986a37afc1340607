// The lines that the hall program prints: one for each line of its input, and last the visible characters.
ghost use Rattle.std.specs.Prelude.{◌≡◌, true, List, [], ◌++◌, ◌∷◌, ◌≤◌, length, take};
ghost use Rattle.decimal.specs.Numeral.{digits};
ghost use Rattle.lines.specs.Fields.{tab, line_of};
ghost use Rattle.woot.specs.declared.Character.{Character};
ghost use Rattle.woot.specs.Memory.{meaning, code_points_of, toggle_counts, replica_well_formed, character_numbers};
ghost use Rattle.woot.specs.Memory.{character_slots, code_point_column};
ghost use Rattle.woot.specs.Writing.{written_as, output_after};
ghost use Rattle.transcript.specs.Lines.{report_line, text_line, listing};

use answers::{Answer, Refusal};
use woot::{CHARACTER_NUMBERS, CODE_POINTS, Replica};

// Writes a line of a number, a word and three numbers at the front of the slice, all of it or nothing.
fn put_report(number: u64, word: &[u8], values: [u64; 3], out: &mut [u8]) -> Result<usize, Refusal>
    requires { length word.now ≤ 7 }
    ensures value { result ≡ written_as [] (line_of (digits number ++ tab ∷ word.now) values) out.old }
    ensures out_after { out.new
        ≡ output_after [] (line_of (digits number ++ tab ∷ word.now) values) out.old }
{
    let mut head = [0u8; 28];
    let mut end = decimal::write(number, &mut head, 0);
    end = output::put(&mut head, end, lines::TAB);
    end = output::put_all(&mut head, end, word);
    line_writing::fitted(lines::writing::put_line(&head[..end], &values, out, 0))
}

// Writes the line on one line of input at the front of the slice. A slice that is too short keeps every byte.
pub fn report_line(number: u64, answer: Answer, out: &mut [u8]) -> Result<usize, Refusal>
    ensures value { result ≡ written_as [] (report_line number answer) out.old }
    ensures out_after { out.new ≡ output_after [] (report_line number answer) out.old }
{
    match answer {
        Answer::Done {
            integrated,
            discarded,
        } => put_report(
            number,
            b"done",
            [integrated as u64, discarded as u64, 0],
            out,
        ),
        Answer::Deferred => put_report(number, b"waits", [0, 0, 0], out),
        Answer::Duplicate => put_report(number, b"known", [0, 0, 0], out),
        Answer::Refused(refusal) => put_report(number, b"refused", [0, 0, refusal.number()], out),
    }
}

// What the text line lists: the count of the visible characters, their code points and zeros after them. The count
// stands beside them too.
#[derive(Clone, Copy)]
struct Listing {
    values: [u64; 1025],
    count: usize,
}

// A code point as a number of a line.
fn wide(code_point: u32) -> u64
    ensures { result ≡ code_point }
{
    code_point as u64
}

// Lists the visible ones of the first n characters.
fn list<'a>(code_points: &'a [u32], toggles: &'a [u8], n: usize) -> Listing
    requires n_le_character_slots { n ≤ character_slots }
    requires n_in_bounds { n ≤ length code_points.now }
    requires n_in_bounds_2 { n ≤ length toggles.now }
    ensures value { (cs : List Character) → code_points_of cs ≡ take n code_points.now
        → toggle_counts cs ≡ take n toggles.now → result ≡ listing cs }
    ensures count_le_character_slots { result.count ≤ character_slots }
    ensures values_len { length result.values ≡ 1025 }
{
    let mut values = [0u64; 1025];
    let mut count = 0;
    for i in 0..n {
        if toggles[i] % 2 == 0 {
            count += 1;
            values[count] = wide(code_points[i]);
        }
    }
    values[0] = count as u64;
    Listing { values, count }
}

// Writes the line of the visible ones of the first n characters at the front of the slice, all of it or nothing.
fn put_text<'a>(
    characters: &'a [u32],
    toggles: &'a [u8],
    n: usize,
    out: &mut [u8],
) -> Result<usize, Refusal>
    requires n_le_character_slots { n ≤ character_slots }
    requires characters_len { length characters.now ≡ character_numbers }
    requires n_in_bounds { n ≤ length toggles.now }
    ensures value { (cs : List Character) → code_points_of cs ≡ take n (code_point_column characters.now)
        → toggle_counts cs ≡ take n toggles.now
        → result ≡ written_as [] (text_line cs) out.old }
    ensures out_after { (cs : List Character) → code_points_of cs ≡ take n (code_point_column characters.now)
        → toggle_counts cs ≡ take n toggles.now
        → out.new ≡ output_after [] (text_line cs) out.old }
{
    let listed = list(&characters[CODE_POINTS..CHARACTER_NUMBERS], toggles, n);
    let values = listed.values;
    let size = listed.count + 1;
    line_writing::fitted(lines::writing::put_line(b"T", &values[..size], out, 0))
}

// Internal step: writes the line of a replica's visible characters at the front of the slice. A slice that is too
// short keeps every byte. The program's replica is well formed from the first line to the last.
pub fn text_line(replica: Replica, out: &mut [u8]) -> Result<usize, Refusal>
    requires { replica_well_formed replica ≡ true }
    ensures value { result ≡ written_as [] (text_line (meaning replica).characters) out.old }
    ensures out_after { out.new ≡ output_after [] (text_line (meaning replica).characters) out.old }
{
    put_text(
        &replica.document.characters,
        &replica.document.toggles,
        replica.document.length,
        out,
    )
}
