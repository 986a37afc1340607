// Where the neighbours of the rows stand, by the table.
ghost use Rattle.std.specs.Prelude.{◌≡◌, ◌≤◌, length};
ghost use Rattle.index.specs.Keys.{place_in};
ghost use Rattle.index.specs.Tabled.{Tabled};
ghost use Rattle.neighbours.specs.Steps.{Placed};

use woot::Table;

// Internal step: the place of one neighbour of each row, its previous or its next. Most rows stand beside their
// neighbours, so that the place that many past the index is looked at first. The calls have checked the table, and
// sought the end mark's place in it.
pub fn find_places<'a>(
    table: &'a Table,
    ids: &'a [u32],
    keys: &'a [u32],
    end: usize,
    past: usize,
    places: &mut [u16],
)
    requires tabled { Tabled table.now ids.now }
    requires end_value { end ≡ place_in ids.now 1 }
    requires past_bound { past ≤ 2 }
    requires ids_in_bounds { length ids.now ≤ length keys.now }
    requires ids_in_bounds_2 { length ids.now ≤ length places.old }
    ensures places_len_unchanged { length places.new ≡ length places.old }
    ensures placed { Placed ids.now keys.now places.new }
{
    for i in 0..ids.len() {
        let at = index::place_near(table, ids, end, i + past, keys[i]);
        places[i] = at as u16;
    }
}
