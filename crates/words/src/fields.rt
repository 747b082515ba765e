// Fields of events and rosters: little-endian numbers at any byte of a slice, unsigned or in two's complement.
ghost use Rattle.std.specs.Prelude.{◌≡◌, ℕ, List, ◌+◌, ◌≤◌, length};
ghost use Rattle.words.specs.Fields.{u8_at, u16_at, u32_at, u64_at, i32_at, i64_at};

// A type of number that a field can have: its width in bytes, and the number that the bytes from a place on say. Its impls are written out:
// one that a macro wrote would not be checked.
pub trait Field {
    ghost width: { ℕ };

    ghost number_at: { List ℕ → ℕ → Self };

    // The field at byte `a`.
    fn at(s: &[u8], a: usize) -> Self
        requires { a + width ≤ length s.now }
        ensures { result ≡ number_at s.now a };
}

impl Field for u8 {
    ghost width = { 1 };

    ghost number_at = { u8_at };

    #[tactic(auto, unfolding(crate::specs::Bytes::number, crate::specs::Fields::u8_at))]
    fn at(s: &[u8], a: usize) -> u8 {
        s[a]
    }
}

impl Field for u16 {
    ghost width = { 2 };

    ghost number_at = { u16_at };

    #[tactic(auto, unfolding(crate::specs::Bytes::number, crate::specs::Fields::u16_at))]
    fn at(s: &[u8], a: usize) -> u16 {
        u16::from_le_bytes([s[a], s[a + 1]])
    }
}

impl Field for u32 {
    ghost width = { 4 };

    ghost number_at = { u32_at };

    #[tactic(auto, unfolding(crate::specs::Bytes::number, crate::specs::Fields::u32_at))]
    fn at(s: &[u8], a: usize) -> u32 {
        u32::from_le_bytes([s[a], s[a + 1], s[a + 2], s[a + 3]])
    }
}

impl Field for u64 {
    ghost width = { 8 };

    ghost number_at = { u64_at };

    #[tactic(auto, unfolding(crate::specs::Bytes::number, crate::specs::Fields::u64_at))]
    fn at(s: &[u8], a: usize) -> u64 {
        u64::from_le_bytes([
            s[a],
            s[a + 1],
            s[a + 2],
            s[a + 3],
            s[a + 4],
            s[a + 5],
            s[a + 6],
            s[a + 7],
        ])
    }
}

impl Field for i32 {
    ghost width = { 4 };

    ghost number_at = { i32_at };

    #[tactic(auto, using(crate::proofs::Complement::cast32), unfolding(crate::specs::Fields::u32_at, crate::specs::Fields::i32_at))]
    fn at(s: &[u8], a: usize) -> i32 {
        u32::at(s, a).cast_signed()
    }
}

impl Field for i64 {
    ghost width = { 8 };

    ghost number_at = { i64_at };

    #[tactic(auto, using(crate::proofs::Complement::cast64), unfolding(crate::specs::Fields::u64_at, crate::specs::Fields::i64_at))]
    fn at(s: &[u8], a: usize) -> i64 {
        u64::at(s, a).cast_signed()
    }
}
