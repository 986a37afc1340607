// The visible characters of a document on its lent arrays: how many there are, where one of them stands, the keys
// beside an insertion point, and their text. The public functions are internal steps: the calls lend arrays that have
// a slot for each of the n characters.
#![tactic(auto)]

ghost use Rattle.std.specs.Prelude.{◌≡◌, List, ◌++◌, ◌∷◌, [], ◌≤◌, length, take, get_or};
ghost use Rattle.output.specs.Output.{placed, past};
ghost use Rattle.woot.specs.declared.Character.{Character};
ghost use Rattle.woot.specs.Identifiers.{begin, end};
ghost use Rattle.woot.specs.Operations.{is_visible};
ghost use Rattle.woot.specs.Calls.{visibles};
ghost use Rattle.woot.specs.Text.{printed, text};
ghost use Rattle.woot.specs.Table.{key, keys};
ghost use Rattle.woot.specs.Memory.{code_points_of, toggle_counts, character_slots};
ghost use Rattle.woot.specs.Writing.{written_as, output_after};
ghost use Rattle.visible.specs.Shown.{nth_index, get_key, spelt_as, text_of};

use answers::Refusal;

// Internal step: how many of the first n characters are visible.
pub fn count(toggles: &[u8], n: usize) -> usize
    requires { n ≤ length toggles.now }
    ensures { (cs : List Character)
        → toggle_counts cs ≡ take n toggles.now → result ≡ length (visibles cs) }
{
    toggles[..n].iter().filter(|count| **count % 2 == 0).count()
}

// Internal step: the slot of the visible character counted k from 0 among the first n.
pub fn nth(toggles: &[u8], n: usize, k: usize) -> Option<usize>
    requires { n ≤ length toggles.now }
    ensures { (cs : List Character)
        → toggle_counts cs ≡ take n toggles.now → result ≡ nth_index is_visible cs k }
{
    let mut rest = k;
    for i in 0..n {
        if toggles[i] % 2 == 0 {
            if rest == 0 {
                return Some(i);
            }
            rest -= 1;
        }
    }
    None
}

// The key of the visible character counted k from 0, or the mark's where there is none.
fn key_of<'a>(ids: &'a [u32], toggles: &'a [u8], n: usize, k: usize, mark: u32) -> u32
    requires n_in_bounds { n ≤ length ids.now }
    requires n_in_bounds_2 { n ≤ length toggles.now }
    ensures { (cs : List Character) → keys cs ≡ take n ids.now
        → toggle_counts cs ≡ take n toggles.now → result ≡ get_key (visibles cs) k mark }
{
    match nth(toggles, n, k) {
        Some(i) => ids[i],
        None => mark,
    }
}

// Internal step: the key of the identifier on the left of the insertion point g among the first n characters: that of
// the visible character counted g from 1, or of the begin mark.
pub fn left<'a>(ids: &'a [u32], toggles: &'a [u8], n: usize, point: usize) -> u32
    requires n_in_bounds { n ≤ length ids.now }
    requires n_in_bounds_2 { n ≤ length toggles.now }
    ensures { (cs : List Character) → keys cs ≡ take n ids.now
        → toggle_counts cs ≡ take n toggles.now
        → result ≡ key (get_or (begin ∷ visibles cs) point begin) }
{
    if point == 0 {
        return 0;
    }
    key_of(ids, toggles, n, point - 1, 0)
}

// Internal step: the key of the one on its right: that of the visible character counted g from 0, or of the end mark.
pub fn right<'a>(ids: &'a [u32], toggles: &'a [u8], n: usize, point: usize) -> u32
    requires n_in_bounds { n ≤ length ids.now }
    requires n_in_bounds_2 { n ≤ length toggles.now }
    ensures { (cs : List Character) → keys cs ≡ take n ids.now
        → toggle_counts cs ≡ take n toggles.now
        → result ≡ key (get_or (visibles cs ++ end ∷ []) point end) }
{
    key_of(ids, toggles, n, point, 1)
}

// The code point that goes out for one in the text: U+FFFD for 0 to 8, 11 to 31 and 127, and any other as it is.
fn printed(code_point: u32) -> u32
    ensures { result ≡ printed code_point }
{
    match code_point {
        0..=8 | 11..=31 | 127 => 65533,
        _ => code_point,
    }
}

// How many bytes a character adds to the text.
fn size(code_point: u32, toggles: u8) -> usize
    ensures { result ≡ length (spelt_as code_point toggles) }
{
    if toggles % 2 == 0 {
        utf8::encoded_length(printed(code_point))
    } else {
        0
    }
}

// How many bytes the text of the first n characters has.
fn text_length<'a>(code_points: &'a [u32], toggles: &'a [u8], n: usize) -> usize
    requires n_le_character_slots { n ≤ character_slots }
    requires n_in_bounds { n ≤ length code_points.now }
    requires n_in_bounds_2 { n ≤ length toggles.now }
    ensures { result
        ≡ length (text_of (take n code_points.now) (take n toggles.now)) }
{
    let mut bytes = 0;
    for i in 0..n {
        bytes += size(code_points[i], toggles[i]);
    }
    bytes
}

// Puts the bytes that a character adds to the text into the slice at the offset, and answers the offset just past them.
fn put_visible(code_point: u32, toggles: u8, out: &mut [u8], at: usize) -> usize
    ensures value { result ≡ past out.old at (spelt_as code_point toggles) }
    ensures out_after { out.new ≡ placed out.old at (spelt_as code_point toggles) }
{
    if toggles % 2 == 0 {
        utf8::write(printed(code_point), out, at)
    } else {
        at
    }
}

// Puts the text of the first n characters, for which there is room, at the front of the slice.
fn put_text(code_points: &[u32], toggles: &[u8], n: usize, out: &mut [u8])
    requires n_in_bounds { n ≤ length code_points.now }
    requires n_in_bounds_2 { n ≤ length toggles.now }
    requires toggles_in_bounds { length (text_of (take n code_points.now) (take n toggles.now)) ≤ length out.old }
    ensures { out.new
        ≡ placed out.old 0 (text_of (take n code_points.now)
        (take n toggles.now)) }
{
    let mut at = 0;
    for i in 0..n {
        at = put_visible(code_points[i], toggles[i], out, at);
    }
}

// Internal step: writes the text of the first n characters, or refuses where the slice is too short, and leaves it as
// it was then. The characters are at most as many as a document has slots for, so that their bytes can be counted.
pub fn write_text<'a>(
    code_points: &'a [u32],
    toggles: &'a [u8],
    n: usize,
    out: &mut [u8],
) -> Result<usize, Refusal>
    requires n_le_character_slots { n ≤ character_slots }
    requires n_in_bounds { n ≤ length code_points.now }
    requires n_in_bounds_2 { n ≤ length toggles.now }
    ensures value { (cs : List Character) → code_points_of cs ≡ take n code_points.now
        → toggle_counts cs ≡ take n toggles.now
        → result ≡ written_as [] (text cs) out.old }
    ensures out_after { (cs : List Character) → code_points_of cs ≡ take n code_points.now
        → toggle_counts cs ≡ take n toggles.now
        → out.new ≡ output_after [] (text cs) out.old }
{
    let bytes = text_length(code_points, toggles, n);
    if out.len() < bytes {
        return Err(Refusal::Output);
    }
    put_text(code_points, toggles, n, out);
    Ok(bytes)
}
