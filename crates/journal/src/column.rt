// The numbers of a line, each at its field's place, taken apart: the columns of a pattern and of a year.
ghost use Rattle.std.specs.Prelude.{◌≡◌, ◌≤◌, ◌<◌, ◌+◌, ◌*◌, ℕ};
ghost use Rattle.numbers.specs.Number.{most};
ghost use Rattle.record.specs.Column.{each, whole, size_at, paid_at};
ghost use Rattle.record.specs.Asks.{Low};
ghost use Rattle.journal.specs.ColumnOf.{ColumnOf};

use arrayvec::ArrayVec;

// A column: a number for each age, and in a year one for the prior row.
pub type Column<T> = ArrayVec<T, 11>;

// n numbers, the first at a place and each a step after the one before.
pub fn column(sizes: &[u64; 62], place: usize, step: usize, n: usize) -> Column<u64>
    requires { (place ≤ 5) × (step ≤ 3) × (n ≤ 11) }
    ensures { result.items ≡ each (size_at sizes.now) n step place }
{
    column_of(place, step, n, |at| sizes[at])
}

// The paid of n rows of a year.
pub fn payments(minus: &[bool; 62], sizes: &[u64; 62], n: usize) -> Column<i64>
    requires { (n ≤ 11) × Low n sizes.now }
    ensures { result.items ≡ each (paid_at minus.now sizes.now) n 3 3 }
{
    column_of(3, 3, n, |at| paid_of(minus[at], sizes[at]))
}

// What `number` answers of n places, each a step after the one before.
fn column_of<T: Default + Drop, F: Fn(usize) -> T>(
    place: usize,
    step: usize,
    n: usize,
    number: F,
) -> Column<T>
    requires places { (place ≤ 5) × (step ≤ 3) × (n ≤ 11) }
    requires asked { (i : ℕ) → i < n → F.pre number (place + i * step) }
    ensures { ColumnOf (F.post number) place step n result.items }
{
    let mut list = Column::new();
    for i in 0..n {
        list.push(number(place + i * step));
    }
    list
}

// A paid of a sign and a size.
fn paid_of(minus: bool, size: u64) -> i64
    requires { size ≤ most }
    ensures { result ≡ whole minus size }
{
    if minus { -(size as i64) } else { size as i64 }
}
