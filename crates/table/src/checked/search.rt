// Binary search among the first places.
ghost use Rattle.std.specs.Prelude.{ℕ, Bool, ◌<◌, ◌≤◌};
ghost use Rattle.table.specs.Searching.{Tells, Falls, Parts};

// The first of the places below n at which a test fails, or n, by binary search: a test that fails at a place fails at all later ones.
pub fn first_not<F: Fn(usize) -> bool>(n: usize, below: F) -> usize
    requires { (i : ℕ) → i < n → F.pre below i }
    ensures within { result ≤ n }
    ensures parted { (p : ℕ → Bool) → Tells (F.post below) p n → Falls p n → Parts p n result }
{
    let mut lo = 0;
    let mut hi = n;
    // Each turn halves what is left, so no range has the turns.
    while lo < hi {
        let mid = lo + (hi - lo) / 2;
        if below(mid) {
            lo = mid + 1;
        } else {
            hi = mid;
        }
    }
    lo
}
