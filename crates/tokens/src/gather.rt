// Values that are found one by one.
ghost use Rattle.std.specs.Prelude.{◌≡◌, ℕ, ◌<◌, Option};
ghost use Rattle.tokens.specs.Gathered.{gathered};

/// So many values, each found by its place, or nothing where one is wanting. `blank` stands where none is found yet, and is
/// in no result.
pub(crate) fn gather<T: Copy, const N: usize, F: Fn(usize) -> Option<T>>(
    blank: T,
    find: F,
) -> Option<[T; N]>
    requires { (i : ℕ) → i < N → F.pre find i }
    ensures { (f : ℕ → Option T) → ((i : ℕ) (found : Option T) → i < N → F.post find i found → found ≡ f i) → result ≡ gathered f 0 N }
{
    let mut values = [blank; N];
    // By place: `array::try_from_fn` requires that the array fits in memory beside a copy, and no public function here requires.
    for i in 0..N {
        values[i] = find(i)?;
    }
    Some(values)
}
