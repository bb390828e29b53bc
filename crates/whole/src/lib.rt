// Signed numbers: a sum that fits, an i32 as an i64, and a comparison, each as a statement on whole numbers.
#![tactic(auto)]

ghost use Rattle.std.specs.Prelude.{◌≡◌, ◌^◌};
ghost use Rattle.std.specs.Int.Signed.{lt_z};
ghost use Rattle.whole.specs.Zed.{◌⊕◌, Within};

// A distance and a cost, added: neither is farther from 0 than 2^60, so the sum fits.
pub fn plus(d: i64, c: i64) -> i64
    requires { Within (2 ^ 60) d × Within (2 ^ 60) c }
    ensures { result ≡ d ⊕ c }
{
    d + c
}

// A stored cost as a distance is.
pub fn widen(c: i32) -> i64
    ensures { result ≡ c }
{
    i64::from(c)
}

// Is a below b?
pub fn lower(a: i64, b: i64) -> bool
    ensures { result ≡ lt_z a b }
{
    a < b
}
