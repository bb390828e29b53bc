// f64 costs and distances, both as patterns of 64 bits:
// what one arc of a search does with them. A float stands in sums and comparisons alone.
#![tactic(auto)]

ghost use Rattle.std.specs.Prelude.{◌≡◌, cond};
ghost use Rattle.std.specs.Float.{binary64};
ghost use Rattle.clean.specs.None.{none_f64};
ghost use Rattle.float.specs.Dist.{Dist64, plus64};
ghost use Rattle.float.specs.Cost.{bad_cost};
ghost use Rattle.float.specs.Cutoff.{limit_of, past};
ghost use Rattle.float.specs.Better.{better_within};
ghost use Rattle.float.specs.Stored.{Stored};

// Is the sign bit set, or is it a NaN? As numbers these are the patterns past that of +infinity.
pub fn bad_cost(bits: u64) -> bool
    ensures { result ≡ bad_cost binary64 bits }
{
    bits > 0x7ff0_0000_0000_0000
}

// A distance and a good cost, added.
pub fn plus(d: u64, bits: u64) -> u64
    requires dist64 { Dist64 d }
    requires dist64_2 { Dist64 bits }
    ensures { result ≡ plus64 d bits }
{
    f64::to_bits(f64::from_bits(d) + f64::from_bits(bits))
}

// The value that totals are held to: +infinity without a cutoff, which no total is past.
pub fn limit(cutoff: Option<f64>) -> f64
    ensures { result ≡ limit_of cutoff }
{
    cutoff.unwrap_or(f64::INFINITY)
}

// Is the total past the cutoff at that value?
fn cuts(limit: f64, next: u64) -> bool
    requires { Dist64 next }
    ensures { result ≡ past (Some limit) next }
{
    f64::from_bits(next) > limit
}

// The total as it counts: none where it is past the cutoff at that value.
fn counted(limit: f64, next: u64) -> u64
    requires { Dist64 next }
    ensures { result ≡ cond (past (Some limit) next) none_f64 next }
{
    if cuts(limit, next) {
        clean::NONE_F64
    } else {
        next
    }
}

// Is the total to be stored over what is there? The pattern of none is above that of every distance, so one comparison tells;
// and a total that is past the limit counts as none, since whether it is past is what no processor can foresee.
// Shut out: a total that is no distance, and what is neither none nor a distance.
pub fn better(limit: f64, next: u64, stored: u64) -> bool
    requires dist64 { Dist64 next }
    requires stored { Stored stored }
    ensures { result ≡ better_within limit next stored }
{
    counted(limit, next) < stored
}
