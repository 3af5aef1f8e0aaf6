// A search by halves.
ghost use Rattle.std.specs.Prelude.{◌≡◌, ℕ, true, false, ◌-◌, ◌<◌, ◌≤◌};

// The number from `low` to `high` before which a test stops holding, as the library's `partition_point` finds it in a slice.
pub fn partition_point<P: Fn(usize) -> bool>(low: usize, high: usize, test: P) -> usize
    requires order { low ≤ high }
    requires calls { (i : ℕ) → low ≤ i → i < high → P.pre test i }
    ensures range { (low ≤ result) × (result ≤ high) }
    ensures before { low < result → P.post test (result - 1) true }
    ensures at { result < high → P.post test result false }
{
    let mut from = low;
    let mut to = high;
    while from < to {
        let middle = from + (to - from) / 2;
        if test(middle) {
            from = middle + 1;
        } else {
            to = middle;
        }
    }
    from
}
