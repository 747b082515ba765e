// Bytes copied from one slice to another.
ghost use Rattle.std.specs.Prelude.{◌≡◌, ◌++◌, ◌≤◌, length, take, drop};

// Makes the first `n` bytes of `to` those of `from`: a count beside two slices, each of which may be longer, as its clause says.
pub fn copy(to: &mut [u8], from: &[u8], n: usize)
    requires { (n ≤ length to.old) × (n ≤ length from.now) }
    ensures { to.new ≡ take n from.now ++ drop n to.old }
{
    to[..n].copy_from_slice(&from[..n]);
}
