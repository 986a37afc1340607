// Whether no row is its own neighbour, or its neighbour's neighbour, and so on: rows whose neighbours are marks or
// taken away are taken away, until none is left or none can be. A row that is taken away has a flag.
ghost use Rattle.std.specs.Prelude.{◌≡◌, true, false, ◌≤◌, ◌<◌, length};
ghost use Rattle.woot.specs.Memory.{character_slots};
ghost use Rattle.neighbours.specs.Steps.{settled, unflagged, Passed, Unknotted, Knot};

use crate::place;
use woot::CHARACTERS;

// Whether a place is a mark's, or that of a row with a flag.
#[tactic(auto, unfolding(crate::specs::Steps::settled, crate::specs::Steps::unflagged))]
fn settled(flags: &[u8], n: usize, place: usize) -> bool
    requires { n ≤ length flags.now }
    ensures { result ≡ settled (unflagged flags.now) n place }
{
    place == 0 || n < place || flags[place - 1] != 0
}

// Takes away row k where it is left and both its neighbours are settled, and answers how many that makes.
fn take_free<'a>(above: &'a [u16], below: &'a [u16], n: usize, k: usize, flags: &mut [u8]) -> usize
    requires k_lt_n { k < n }
    requires n_in_bounds { n ≤ length above.now }
    requires n_in_bounds_2 { n ≤ length below.now }
    requires n_in_bounds_3 { n ≤ length flags.old }
    ensures { Passed above.now below.now n (λ j. j ≡ k) flags.old
        flags.new result }
{
    if flags[k] != 0 {
        return 0;
    }
    if !settled(flags, n, place(above[k])) {
        return 0;
    }
    if !settled(flags, n, place(below[k])) {
        return 0;
    }
    flags[k] = 1;
    1
}

// One pass from the top, which takes away all at once where rows were typed downwards: how many rows it took.
fn pass_down<'a>(above: &'a [u16], below: &'a [u16], n: usize, flags: &mut [u8]) -> usize
    requires n_in_bounds { n ≤ length above.now }
    requires n_in_bounds_2 { n ≤ length below.now }
    requires n_in_bounds_3 { n ≤ length flags.old }
    ensures { Passed above.now below.now n (λ j. j < n) flags.old
        flags.new result }
{
    let mut taken = 0;
    for k in 0..n {
        taken += take_free(above, below, n, k, flags);
    }
    taken
}

// The same from the bottom, for rows that were typed upwards.
// One function over both orders would be no plainer: its caller would owe that the order comes to each row.
fn pass_up<'a>(above: &'a [u16], below: &'a [u16], n: usize, flags: &mut [u8]) -> usize
    requires n_in_bounds { n ≤ length above.now }
    requires n_in_bounds_2 { n ≤ length below.now }
    requires n_in_bounds_3 { n ≤ length flags.old }
    ensures { Passed above.now below.now n (λ j. j < n) flags.old
        flags.new result }
{
    let mut taken = 0;
    for k in (0..n).rev() {
        taken += take_free(above, below, n, k, flags);
    }
    taken
}

// Internal step: whether all n rows can be taken away. The calls have found the places.
pub fn acyclic<'a>(above: &'a [u16], below: &'a [u16], n: usize) -> bool
    requires n_le_character_slots { n ≤ character_slots }
    requires n_in_bounds { n ≤ length above.now }
    requires n_in_bounds_2 { n ≤ length below.now }
    ensures unknotted { result ≡ true → Unknotted above.now below.now n }
    ensures knot { result ≡ false → Knot above.now below.now n }
{
    let mut flags = [0u8; CHARACTERS];
    let mut left = n;
    // It stays a while: it ends when a sweep takes nothing, and no index is counted.
    while 0 < left {
        let first = pass_down(above, below, n, &mut flags);
        let second = pass_up(above, below, n, &mut flags);
        let taken = first + second;
        if taken == 0 {
            return false;
        }
        left -= taken;
    }
    true
}
