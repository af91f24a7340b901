//! Writing the numbers of many things to an array of C's.

ghost use Rattle.std.specs.Prelude.{◌≡◌, length, min};
ghost use Rattle.library_books.specs.Calls.{are_written};

/// Numbers of a thing.
pub trait NumbersOf<T> {
    ghost use Rattle.std.specs.Prelude.{◌≡◌};

    ghost numbers: { T → Self };

    /// Its numbers.
    fn of(item: &T) -> Self
        ensures { result ≡ numbers item.now };
}

impl NumbersOf<u16> for u32 {
    ghost numbers = { λ number. number };

    fn of(item: &u16) -> u32 {
        u32::from(*item)
    }
}

/// Writes the numbers of the first items, as many as `places` has room for. Returns how many these are.
pub fn write_all<T, N: NumbersOf<T> + Copy>(items: &[T], places: &mut [N]) -> usize
    ensures count { result ≡ min (length items.now) (length places.old) }
    ensures written { places.new ≡ are_written N.numbers items.now places.old }
{
    let count = usize::min(items.len(), places.len());
    for k in 0..count {
        places[k] = N::of(&items[k]);
    }
    count
}
