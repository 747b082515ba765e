// A weight in its range.
ghost use Rattle.std.specs.Prelude.{◌≡◌, nat_le, unsigned_abs};

// Is the weight in range?
pub fn is_weight(z: i64) -> bool
    ensures { result ≡ nat_le (unsigned_abs z) 1000000 }
{
    (-1000000..=1000000).contains(&z)
}
