// The page check: are the distances that another program gives those that the map's arcs allow?
#![tactic(auto)]

ghost use Rattle.std.specs.Prelude.{◌≡◌, ℕ, ◌≤◌, ◌<◌, length};
ghost use Rattle.numbers.specs.Refusal.{number_of};
ghost use Rattle.clean.specs.None.{none_i64};
ghost use Rattle.net.specs.Net.{int_net, ArcOf};
ghost use Rattle.page.specs.Promise.{entry, Known, InRange, Ranged, Right, answer_in, Promise};
ghost use Rattle.page.specs.Parts.{refusal_no, Tells, Decides, MarkedWhereKnown, CanLook, ArcChecked};
ghost use Rattle.page.specs.Parts.{UptoIn, StepIn, ScannedIn, RipeIn};

use net::{Ints, Lent};
use numbers::Refusal;
use table::Map;

// The largest distance that a page may hold.
const TOP: i64 = 1 << 42;

// The least.
const LOW: i64 = -TOP;

// The refusals: Limit where a limit is passed or a lent slice is too short, then Index, then Source.
#[tactic(auto, unfolding(crate::specs::Parts::refusal_no))]
fn refusal(net: Lent<Ints>, source: usize, page: &[i64]) -> Result<(), Refusal>
    ensures { number_of result ≡ refusal_no (int_net net.entry) source page.now }
{
    if !net.whole() || page.len() < net.map.bound {
        return Err(Refusal::Limit);
    }
    if !net.inside() {
        return Err(Refusal::Index);
    }
    if !net.has(source) {
        return Err(Refusal::Source);
    }
    Ok(())
}

// Is the entry a distance, and not none?
fn is_distance(entry: i64) -> bool
    ensures { Tells (entry ≡ none_i64 → ⊥) (entry ≡ none_i64) result }
{
    entry != clean::NONE_I64
}

// Is the entry none, or in the range that distances have?
fn in_range(entry: i64) -> bool
    ensures { Decides (InRange entry) result }
{
    !is_distance(entry) || (LOW..=TOP).contains(&entry)
}

// Is each of the first m entries none, or in the range?
fn all_in_range(m: usize, page: &[i64]) -> bool
    requires { m ≤ length page.now }
    ensures { Decides (Ranged m page.now) result }
{
    page[..m].iter().all(|entry| in_range(*entry))
}

// Does an arc from u to v hold? Marks v where the arc meets it exactly.
fn arc_holds(page: &[i64], met: &mut [u8], u: usize, v: usize, cost: i32) -> bool
    requires { CanLook page.now met.old u v }
    ensures { ArcChecked page.now u v cost met.old met.new result }
{
    if !is_distance(page[u]) {
        return true;
    }
    if !is_distance(page[v]) {
        return false;
    }
    let next = page[u] + i64::from(cost);
    if page[v] == next {
        met[v] = 1;
    }
    page[v] <= next
}

// Do the arcs of the link i hold: one if directed, else one each way?
fn link_holds(net: Lent<Ints>, page: &[i64], met: &mut [u8], i: usize) -> bool
    requires { (i < net.map.count) × UptoIn net i page.now met.old }
    ensures { StepIn net.entry i page.now met.new result }
{
    let a = usize::from(net.from[i]);
    let b = usize::from(net.to[i]);
    let cost = net.costs.costs[i];
    arc_holds(page, met, a, b, cost) && (net.map.directed || arc_holds(page, met, b, a, cost))
}

// Does every arc hold? The marks are then those of the indices that some arc meets exactly.
fn arcs_hold(net: Lent<Ints>, page: &[i64], met: &mut [u8]) -> bool
    requires { UptoIn net 0 page.now met.old }
    ensures { ScannedIn net.entry page.now met.new result }
{
    for i in 0..net.map.count {
        if !link_holds(net, page, met, i) {
            return false;
        }
    }
    true
}

// Is each of the first m indices the source, or without a distance, or marked?
fn all_met(m: usize, source: usize, page: &[i64], met: &[u8]) -> bool
    requires { (m ≤ length page.now) × (m ≤ length met.now) }
    ensures { Decides ((v : ℕ) → v < m → MarkedWhereKnown source page.now met.now v) result }
{
    (0..m).all(|v| v == source || !is_distance(page[v]) || met[v] != 0)
}

// Is the page right? The marks are all zero at first.
fn judge(net: Lent<Ints>, source: usize, page: &[i64], met: &mut [u8]) -> bool
    requires { RipeIn net source page.now met.old }
    ensures { Decides (Right (ArcOf (int_net net.entry)) net.entry.map.bound source page.now) result }
{
    let m = net.map.bound;
    page[source] == 0
        && all_in_range(m, page)
        && arcs_hold(net, page, met)
        && all_met(m, source, page, met)
}

// The page check: yes or no in m + links steps, with nothing lent written. The promise is in specs/Promise.antt.
pub fn check(net: Lent<Ints>, source: usize, page: &[i64]) -> Result<bool, Refusal>
    ensures { Promise (int_net net.entry) source page.now (answer_in result) }
{
    refusal(net, source, page)?;
    let mut met = [0u8; Map::INDICES];
    Ok(judge(net, source, page, &mut met))
}
