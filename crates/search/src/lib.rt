// The search: the pending bag of document 01 over a neighbour list, by a rule: a heuristic over i64 costs, or a cutoff over f64 costs.
// What it promises is said once, over the kind of search that the rule is (turns).
#![tactic(auto)]

ghost use Rattle.std.specs.Prelude.{◌≡◌, false, ◌⊎◌, [], ◌∷◌, ◌-◌, ◌<◌, pos, length, get_or, set, MatchOption};
ghost use Rattle.std.proofs.Math.Option.{none};
ghost use Rattle.bag.specs.Bag.{Bag};
ghost use Rattle.bag.specs.Content.{content_of, IsLeast};
ghost use Rattle.clean.specs.Fill.{filled};
ghost use Rattle.clean.specs.None.{none_u32};
ghost use Rattle.rows.specs.Rows.{lists_in, neighbours_in};
ghost use Rattle.net.specs.Net.{net_in};
ghost use Rattle.numbers.specs.Refusal.{number_of as refusal_no};
ghost use Rattle.numbers.specs.declared.Refusal.TheVariants.{BadCost as Bad};
ghost use Rattle.rows.specs.RowArc.{RowArc};
ghost use Rattle.turns.specs.Kind.{Kind, ordered};
ghost use Rattle.turns.specs.Asks.{Asks, InRange, RowInRange};
ghost use Rattle.turns.specs.Memory.{memory_of, Fresh};
ghost use Rattle.turns.specs.Row.{worth, Safe, Looked, Opens, BadArc, RowDone};
ghost use Rattle.turns.specs.Searched.{Started, Searched};
ghost use Rattle.turns.specs.Firsts.{EnoughMemory, KeptMemory, Ran};
ghost use Rattle.turns.proofs.Right.{Way, Right};
ghost use Rattle.search.specs.Target.{target_in};
ghost use Rattle.search.specs.Found.{number_of, takes_of};
ghost use Rattle.search.specs.Ints.{guided};
ghost use Rattle.search.specs.Runs.{Cheap, ToAll};
ghost use Rattle.search.specs.Lists.{has_memory, wiped_with, bag_wiped, memory_in, SameMemory};
ghost use Rattle.search.specs.Check.{check_no};

use bag::Key;
use net::{Costs, Lent};
use numbers::Refusal;
use rows::{Lists, Neighbours};

mod floats;
mod ints;

pub use floats::Limited;
pub use ints::Guided;

// A bad cost was met, after so many pairs were taken.
#[derive(Clone, Copy, Debug, PartialEq, Eq)]
pub struct BadCost {
    pub takes: usize,
}

// As a refusal it is 6.
impl From<BadCost> for Refusal {
    ghost from_gives = { λ _ e. e ≡ Bad };

    fn from(_bad: BadCost) -> Refusal {
        Refusal::BadCost
    }
}

// The rule of a search.
pub trait Rule: Copy {
    type Key: Key;

    type Cost: Copy;

    ghost kind: { Self → Kind Self.Key Self.Cost };

    ghost asks: { Self → Asks Self.Key Self.Cost };

    ghost way: { Self → Way Self.Key Self.Cost };

    // The entry of no distance.
    fn none(self) -> Self::Key
        ensures { result ≡ (kind self).blank };

    // The distance of the source.
    fn zero(self) -> Self::Key
        ensures { result ≡ (kind self).zero };

    // Does a cost stop the search?
    fn is_bad(self, cost: Self::Cost) -> bool
        ensures { result ≡ (kind self).bad cost };

    // A distance and a cost, added.
    fn plus(self, d: Self::Key, cost: Self::Cost) -> Self::Key
        requires good { (kind self).good d }
        requires cost { (kind self).bad cost ≡ false }
        requires in_range { (asks self).sum d cost }
        ensures { result ≡ (kind self).plus d cost };

    // Is a total to be stored over what is there?
    fn is_better(self, next: Self::Key, stored: Self::Key) -> bool
        requires good { (kind self).good next }
        requires stored { (stored ≡ (kind self).blank) ⊎ (kind self).good stored }
        ensures { result ≡ worth (ordered Self.Key.kind (kind self)) next stored };

    // The key of v at the distance d.
    fn key(self, d: Self::Key, v: usize) -> Self::Key
        requires { (asks self).key d v }
        ensures { result ≡ (kind self).key d v };

    ghost right: { (r : Self) → Right (ordered Self.Key.kind (kind r)) (asks r) (way r) };
}

// What a search writes: distances and predecessors, and the bag's lists.
#[derive(Drop)]
pub struct Memory<'a, K> {
    pub dist: &'a mut [K],
    pub preds: &'a mut [u32],
    pub peaks: &'a mut [usize],
    pub words: &'a mut [usize],
    pub keys: &'a mut [K],
}

// Has each list of a search m entries?
#[tactic(auto, unfolding(crate::specs::Lists::has_memory))]
pub fn has_memory<K: Copy>(
    m: usize,
    dist: &[K],
    preds: &[u32],
    peaks: &[usize],
    words: &[usize],
    keys: &[K],
) -> bool
    ensures { result ≡ has_memory m (memory_of dist.now preds.now peaks.now words.now keys.now) }
{
    m <= dist.len() && m <= preds.len() && m <= peaks.len() && m <= words.len() && m <= keys.len()
}

impl<'a, K: Copy> Memory<'a, K> {
    // Has each list m entries?
    pub fn long_enough(&self, m: usize) -> bool
        ensures { result ≡ has_memory m (memory_in self.now) }
    {
        has_memory(m, self.dist, self.preds, self.peaks, self.words, self.keys)
    }

    // Zero in the first m entries of each list, of which it is told for the distances and the keys.
    pub fn wipe(&mut self, m: usize, zero: K)
        requires { EnoughMemory m (memory_in self.old) }
        ensures wiped { memory_in self.new ≡ wiped_with zero m (memory_in self.old) }
        ensures same { SameMemory self.old self.new }
    {
        clean::fill(self.dist, m, zero);
        clean::fill(self.preds, m, 0);
        self.wipe_bag(m, zero);
    }

    // The same in the bag's lists alone.
    pub fn wipe_bag(&mut self, m: usize, zero: K)
        requires { EnoughMemory m (memory_in self.old) }
        ensures wiped { memory_in self.new ≡ bag_wiped zero m (memory_in self.old) }
        ensures same { SameMemory self.old self.new }
    {
        clean::fill(self.peaks, m, 0);
        clean::fill(self.words, m, 0);
        clean::fill(self.keys, m, zero);
    }

    // Nothing has a distance and nothing is pending, in the first m entries.
    fn clear(&mut self, m: usize, blank: K)
        requires { EnoughMemory m (memory_in self.old) }
        ensures dist { self.new.dist.now ≡ filled m blank self.old.dist.now }
        ensures preds { self.new.preds.now ≡ filled m none_u32 self.old.preds.now }
        ensures peaks { self.new.peaks.now ≡ filled m 0 self.old.peaks.now }
        ensures words { self.new.words.now ≡ filled m 0 self.old.words.now }
        ensures keys { self.new.keys.now ≡ self.old.keys.now }
        ensures long { EnoughMemory m (memory_in self.new) }
        ensures same { SameMemory self.old self.new }
    {
        clean::fill(self.dist, m, blank);
        clean::fill(self.preds, m, clean::NONE_U32);
        clean::fill(self.peaks, m, 0);
        clean::fill(self.words, m, 0);
    }
}

// May a map of either kind be searched from a source? Limit where a limit is passed or a lent list is too short, Index where a link
// names an index that the map has not, Source where the source is one.
#[tactic(auto, unfolding(crate::specs::Check::check_no))]
pub fn check<C: Costs, W: Copy, K: Copy>(
    net: &Lent<C>,
    source: usize,
    lists: &Lists<W>,
    memory: &Memory<K>,
) -> Result<(), Refusal>
    ensures { refusal_no result ≡ check_no (net_in C.listed C.room net.now) source (lists_in lists.now) (memory_in memory.now) }
{
    let m = net.map.bound;
    if !net.whole() || !lists.long_enough(m, net.most_arcs()) || !memory.long_enough(m) {
        Err(Refusal::Limit)
    } else if !net.inside() {
        Err(Refusal::Index)
    } else if !net.has(source) {
        Err(Refusal::Source)
    } else {
        Ok(())
    }
}

// Takes the least pair out of the bag, of which the keys stay, and gives its index.
fn take_least<K: Key>(peaks: &mut [usize], words: &mut [usize], keys: &mut [K], n: usize) -> usize
    requires bag { Bag K.kind peaks.old words.old keys.old n }
    requires n_nonzero { 0 < n }
    ensures least { IsLeast K.kind.lt (content_of words.old keys.old) (get_or keys.old result K.kind.none) result }
    ensures bag_2 { Bag K.kind peaks.new words.new keys.old (n - 1) }
    ensures keys_after { content_of words.new keys.old ≡ set (content_of words.old keys.old) result none }
    ensures kept { keys.new ≡ keys.old }
{
    bag::take_least(peaks, words, keys, n)
}

// One arc to v, whose cost is good, looked at from u at the distance d. Gives how many pairs are pending then.
fn look_arc<R: Rule>(
    rule: R,
    u: usize,
    d: R::Key,
    v: usize,
    cost: R::Cost,
    size: usize,
    memory: &mut Memory<R::Key>,
) -> usize
    requires safe { Safe (ordered R.Key.kind (R.kind rule)) u d v cost size (memory_in memory.old) }
    requires in_range { InRange (ordered R.Key.kind (R.kind rule)) (R.asks rule) d v cost }
    ensures looked { Looked (ordered R.Key.kind (R.kind rule)) u d v cost size
        (memory_in memory.old) (memory_in memory.new) result }
    ensures long { length memory.new.words.now ≡ length memory.old.words.now }
    ensures same { SameMemory memory.old memory.new }
{
    let next = rule.plus(d, cost);
    if rule.is_better(next, memory.dist[v]) {
        memory.dist[v] = next;
        memory.preds[v] = u as u32;
        let k = rule.key(next, v);
        bag::push_or_lower(memory.peaks, memory.words, memory.keys, size, v, k)
    } else {
        size
    }
}

// Every arc of the row of u, which was taken from the bag. Gives how many pairs are pending then, or none where a cost was bad.
fn look_row<'a, 'b, R: Rule>(
    rule: R,
    m: usize,
    u: usize,
    pending: usize,
    rows: Neighbours<'a, R::Cost>,
    memory: &mut Memory<'b, R::Key>,
) -> Option<usize>
    requires opens { Opens (ordered R.Key.kind (R.kind rule)) m (neighbours_in rows) u pending (memory_in memory.old) }
    requires row_in_range { RowInRange (ordered R.Key.kind (R.kind rule)) (R.asks rule) m (neighbours_in rows) u
        (get_or memory.old.dist.now u (R.kind rule).blank) }
    ensures row { let kind = ordered R.Key.kind (R.kind rule) in
        let arcs = neighbours_in rows.entry in
        MatchOption result (BadArc kind m arcs u)
        (RowDone kind m arcs u (memory_in memory.old) (memory_in memory.new)) }
    ensures same { SameMemory memory.old memory.new }
{
    let (offsets, heads, weights) = (rows.offsets, rows.heads, rows.weights);
    let d = memory.dist[u];
    let mut size = pending;
    for i in offsets[u]..offsets[u + 1] {
        let cost = weights[i];
        if rule.is_bad(cost) {
            return None;
        }
        let v = usize::from(heads[i]);
        size = look_arc(rule, u, d, v, cost, size, memory);
    }
    Some(size)
}

// The source alone, pending. Gives how many pairs are pending then: one.
fn start<R: Rule>(rule: R, source: usize, memory: &mut Memory<R::Key>) -> usize
    requires in_range { (R.asks rule).key (R.kind rule).zero source }
    requires fresh { Fresh (ordered R.Key.kind (R.kind rule)) (length memory.old.words.now) (memory_in memory.old) }
    requires source_in_bounds { source < length memory.old.words.now }
    ensures started { Started (ordered R.Key.kind (R.kind rule)) source (memory_in memory.old) (memory_in memory.new) result }
    ensures long { length memory.new.words.now ≡ length memory.old.words.now }
    ensures same { SameMemory memory.old memory.new }
{
    let zero = rule.zero();
    memory.dist[source] = zero;
    memory.preds[source] = clean::NONE_U32;
    let k = rule.key(zero, source);
    bag::push_or_lower(memory.peaks, memory.words, memory.keys, 0, source, k)
}

// The search from a source, to a target if one is given that is below m.
fn search<'a, 'b, R: Rule>(
    rule: R,
    m: usize,
    source: usize,
    target: Option<usize>,
    rows: Neighbours<'a, R::Cost>,
    memory: &mut Memory<'b, R::Key>,
) -> Result<usize, BadCost>
    requires fit { (R.asks rule).fit m source target (neighbours_in rows) }
    requires fresh { Fresh (ordered R.Key.kind (R.kind rule)) m (memory_in memory.old) }
    ensures searched { Searched (ordered R.Key.kind (R.kind rule)) m (target_in m target) source
        (neighbours_in rows.entry) (memory_in memory.new) (number_of result) (takes_of result) }
    ensures same { SameMemory memory.old memory.new }
{
    let mut size = start(rule, source, memory);
    let mut takes: usize = 0;
    // a worklist, until nothing is pending
    while 0 < size {
        let u = take_least(memory.peaks, memory.words, memory.keys, size);
        takes += 1;
        if target == Some(u) {
            return Ok(takes);
        }
        match look_row(rule, m, u, size - 1, rows, memory) {
            Some(left) => size = left,
            None => return Err(BadCost { takes }),
        }
    }
    Ok(takes)
}

// The same over lists of just the entries used, which become the memory.
fn search_part<'a, 'b, R: Rule>(
    rule: R,
    m: usize,
    source: usize,
    target: Option<usize>,
    rows: Neighbours<'a, R::Cost>,
    dist: &'b mut [R::Key],
    preds: &'b mut [u32],
    peaks: &'b mut [usize],
    words: &'b mut [usize],
    keys: &'b mut [R::Key],
) -> Result<usize, BadCost>
    requires fit { (R.asks rule).fit m source target (neighbours_in rows) }
    requires fresh { Fresh (ordered R.Key.kind (R.kind rule)) m (memory_of dist.old preds.old peaks.old words.old keys.old) }
    ensures { Searched (ordered R.Key.kind (R.kind rule)) m (target_in m target) source
        (neighbours_in rows.entry) (memory_of dist.new preds.new peaks.new words.new keys.new) (number_of result) (takes_of result) }
{
    let mut memory = Memory {
        dist,
        preds,
        peaks,
        words,
        keys,
    };
    search(rule, m, source, target, rows, &mut memory)
}

// The search on the first m entries of each list, whatever they hold, to a target if one is given that is below m. Gives how many pairs
// were taken and not dropped.
pub fn run<'a, 'b, R: Rule>(
    rule: R,
    m: usize,
    source: usize,
    target: Option<usize>,
    rows: Neighbours<'a, R::Cost>,
    memory: &mut Memory<'b, R::Key>,
) -> Result<usize, BadCost>
    requires fit { (R.asks rule).fit m source target (neighbours_in rows) }
    requires enough_memory { EnoughMemory m (memory_in memory.old) }
    ensures ran { Ran (ordered R.Key.kind (R.kind rule)) m (target_in m target) source
        (neighbours_in rows.entry) (memory_in memory.old) (memory_in memory.new) (number_of result) (takes_of result) }
    ensures same { SameMemory memory.old memory.new }
{
    memory.clear(m, rule.none());
    search_part(
        rule,
        m,
        source,
        target,
        rows,
        &mut memory.dist[..m],
        &mut memory.preds[..m],
        &mut memory.peaks[..m],
        &mut memory.words[..m],
        &mut memory.keys[..m],
    )
}

// The least totals from a source to all indices below m: no heuristic, no target. Gives how many pairs were taken and not dropped.
pub fn to_all<'a, 'b>(
    m: usize,
    source: usize,
    rows: Neighbours<'a, i64>,
    memory: &mut Memory<'b, i64>,
) -> Result<usize, BadCost>
    requires cheap { Cheap m (neighbours_in rows) }
    requires source_lt_m { (source < m) × EnoughMemory m (memory_in memory.old) }
    ensures to_all { ToAll (RowArc m (neighbours_in rows.entry)) m source memory.old.dist.now memory.new.dist.now (number_of result) }
    ensures ran { Ran (guided (pos 0 ∷ [])) m none source
        (neighbours_in rows.entry) (memory_in memory.old) (memory_in memory.new) (number_of result) (takes_of result) }
    ensures kept_memory { KeptMemory m (memory_in memory.old) (memory_in memory.new) }
    ensures same { SameMemory memory.old memory.new }
{
    let rule = Guided { guess: &[0] };
    run(rule, m, source, None, rows, memory)
}
