// Prices, whole numbers of either sign (document 02, F-8).
#![tactic(auto)]

ghost use Rattle.std.specs.Prelude.{◌≡◌, true, ◌≤◌, ℤ};
ghost use Rattle.prices.specs.Price.{in_range, within, equals, zero_or_less, is_zero};

const MOST: u64 = 18_014_398_509_481_984;

// Whether a price is within its range.
pub fn in_range(x: i64) -> bool
    ensures { result ≡ in_range x }
{
    x.unsigned_abs() <= MOST
}

// Whether two prices together are at most a cell.
pub fn within(x: i64, y: i64, cell: u64) -> bool
    requires { (in_range x ≡ true) × (in_range y ≡ true) × (cell ≤ 281_474_976_710_656) }
    ensures { result ≡ within x y cell }
{
    x + y <= cell as i64
}

// Whether two prices together are a cell.
pub fn equals(x: i64, y: i64, cell: u64) -> bool
    requires { (in_range x ≡ true) × (in_range y ≡ true) × (cell ≤ 281_474_976_710_656) }
    ensures { result ≡ equals x y cell }
{
    x + y == cell as i64
}

// Whether a price is zero or less.
pub fn zero_or_less(x: i64) -> bool
    ensures { result ≡ zero_or_less x }
{
    x <= 0
}

// Whether a price is zero.
pub fn is_zero(x: i64) -> bool
    ensures { result ≡ is_zero x }
{
    x == 0
}
