// The used part of a lent slice, cleared, or blank: none in every entry.
#![tactic(auto)]

ghost use Rattle.std.specs.Prelude.{◌≡◌, ◌≤◌, length};
ghost use Rattle.clean.specs.Fill.{filled};

// None as a distance, a cost given, an entry of a matrix.
pub const NONE_I64: i64 = -9223372036854775808;

// None as a predecessor, an entry of a path, a node, a count of hops.
pub const NONE_U32: u32 = 4294967295;

// None as an f64 distance: the pattern of -1.0. Distances are lent as patterns, by which a NaN that is not written keeps its payload.
pub const NONE_F64: u64 = 0xbff0_0000_0000_0000;

// The value x at the first n places of a slice: 0 clears them, none blanks them.
pub fn fill<T: Copy>(s: &mut [T], n: usize, x: T)
    requires { n ≤ length s.old }
    ensures { s.new ≡ filled n x s.old }
{
    for cell in &mut s[..n] {
        *cell = x;
    }
}
