// Arrays edited in place where they are lent: a list takes the first slots of an array, and whoever lends the array
// keeps their count. Nothing is copied, so that an edit costs the slots that it moves.
#![tactic(auto)]

ghost use Rattle.std.specs.Prelude.{◌≡◌, ◌++◌, ◌∷◌, suc, ◌≤◌, ◌<◌, length, take, drop, slice_set};
ghost use Rattle.lists.specs.Padding.{pad};
ghost use Rattle.slots.specs.Slots.{put_after, removed};

// Internal step: puts an element after the first k of n. Those behind it move up by one. The calls have found the
// place, and refused what there is no slot for.
pub fn put<T: Copy>(a: &mut [T], n: usize, k: usize, x: T)
    requires k_le_n { k ≤ n }
    requires n_in_bounds { n < length a.old }
    ensures { a.new ≡ put_after k x (take n a.old) ++ drop (suc n) a.old }
{
    a.copy_within(k..n, k + 1);
    set(a, k, x);
}

// Internal step: takes the element at j out of n. Those behind it move down by one, and the slot that is left over is
// blank, as the others behind a list are. The calls have found the index in the list.
pub fn remove<T: Copy>(a: &mut [T], n: usize, j: usize, blank: T)
    requires j_lt_n { j < n }
    requires n_in_bounds { n ≤ length a.old }
    ensures { a.new ≡ removed j (take n a.old) ++ blank ∷ drop n a.old }
{
    a.copy_within(j + 1..n, j);
    a[n - 1] = blank;
}

// Internal step: keeps the first n elements, and makes every slot behind them blank. The calls have no more elements
// than slots. A loop, since `fill` asks for a clone that cannot fail, which `Copy` does not promise.
pub fn clear<T: Copy>(a: &mut [T], n: usize, blank: T)
    requires { n ≤ length a.old }
    ensures { a.new ≡ pad (length a.old) blank (take n a.old) }
{
    for slot in &mut a[n..] {
        *slot = blank;
    }
}

// Internal step: sets the element at k: one of the list, or its next where k is their count. The calls have found the
// index, or refused what there is no slot for.
pub fn set<T: Copy>(a: &mut [T], k: usize, x: T)
    requires { k < length a.old }
    ensures { a.new ≡ slice_set a.old k x }
{
    a[k] = x;
}
