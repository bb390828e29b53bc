// Shortest walks from one source over signed costs, with a queue of the indices whose distance just fell.
#![tactic(auto)]

ghost use Rattle.std.specs.Prelude.{◌≡◌, true, false, ◌&&◌, leb, ◌≤◌, ◌<◌, pos, length, get_or, set};
ghost use Rattle.std.specs.Result.{is_err, result_unwrap_or};
ghost use Rattle.clean.specs.Fill.{filled};
ghost use Rattle.clean.specs.Better.{better_than};
ghost use Rattle.numbers.specs.Refusal.{number_of};
ghost use Rattle.rows.specs.Rows.{lists_in, SameLists};
ghost use Rattle.net.specs.Net.{int_net};
ghost use Rattle.bellman_ford.specs.Promise.{Promise, buffers_in, long_enough};
ghost use Rattle.bellman_ford.specs.Parts.{refusal_no, EnoughRing, Ripe, Solved, SameRing};
ghost use Rattle.bellman_ford.specs.Search.{slot_of, Pushed, Safe, ArcRelaxed, Fit, Open, RowDone, Fresh, Searched, memory_of};

use net::{Ints, Lent};
use numbers::Refusal;
use rows::Lists;

// The lent slices of a search beside the neighbour list: the ring of waiting indices, the marks of those that wait, the path lengths.
#[derive(Drop)]
pub struct Ring<'a> {
    pub queue: &'a mut [usize],
    pub queued: &'a mut [usize],
    pub lengths: &'a mut [usize],
}

impl<'a> Ring<'a> {
    // Is each slice as long as the part used?
    fn long_enough(&self, m: usize) -> bool
        ensures { result ≡ (leb m (length self.now.queue.now)
            && (leb m (length self.now.queued.now) && leb m (length self.now.lengths.now))) }
    {
        m <= self.queue.len() && m <= self.queued.len() && m <= self.lengths.len()
    }

    // In the part used nothing waits, and no index has a path length.
    fn prepare(&mut self, m: usize)
        requires { (m ≤ length self.old.queued.now) × (m ≤ length self.old.lengths.now) }
        ensures queued { self.new.queued.now ≡ filled m 0 self.old.queued.now }
        ensures lengths { self.new.lengths.now ≡ filled m 0 self.old.lengths.now }
        ensures queue { self.new.queue.now ≡ self.old.queue.now }
        ensures same { SameRing self.old self.new }
    {
        clean::fill(self.queued, m, 0);
        clean::fill(self.lengths, m, 0);
    }

    // Zero in the part used of each slice.
    fn wipe(&mut self, m: usize)
        requires { EnoughRing m self.old }
        ensures queue { self.new.queue.now ≡ filled m 0 self.old.queue.now }
        ensures queued { self.new.queued.now ≡ filled m 0 self.old.queued.now }
        ensures lengths { self.new.lengths.now ≡ filled m 0 self.old.lengths.now }
        ensures same { SameRing self.old self.new }
    {
        clean::fill(self.queue, m, 0);
        self.prepare(m);
    }
}

// A closed walk below zero was met: some path was too long to pass no index twice.
#[derive(Clone, Copy)]
struct NegativeLoop;

// The place of what stands i after the first, in a ring of m places.
#[tactic(auto, unfolding(crate::specs::Search::slot_of))]
fn slot(m: usize, head: usize, i: usize) -> usize
    requires { (m ≤ 1024) × (head < m) × (i ≤ m) }
    ensures { result ≡ slot_of m head i }
{
    let at = head + i;
    if at < m { at } else { at - m }
}

// Is n better than what stands there, which may be none?
#[tactic(auto, unfolding(clean::specs::Better::better_than))]
fn better(n: i64, old: i64) -> bool
    ensures { result ≡ better_than n old }
{
    !whole::lower(clean::NONE_I64, old) || whole::lower(n, old)
}

// The index v goes to the end of the ring, unless it waits there. Gives how many wait.
// It is written past the end in either case and then counted or not, for whether it waits no processor can foresee.
fn push(
    m: usize,
    head: usize,
    size: usize,
    queue: &mut [usize],
    queued: &mut [usize],
    v: usize,
) -> usize
    requires { (m ≤ 1024) × (head < m) × (size ≤ m) × (v < m) × (m ≤ length queue.old) × (m ≤ length queued.old) }
    ensures { Pushed m head size v queue.old queued.old queue.new queued.new result }
{
    if m <= size {
        return size;
    }
    let old = queued[v];
    queued[v] = 1;
    let at = slot(m, head, size);
    queue[at] = v;
    if old == 0 { size + 1 } else { size }
}

// One arc to v, looked at from an index with the distance d and the path length k. Gives how many wait.
fn relax_arc(
    m: usize,
    p: usize,
    d: i64,
    k: usize,
    v: usize,
    cost: i64,
    head: usize,
    size: usize,
    dist: &mut [i64],
    queue: &mut [usize],
    queued: &mut [usize],
    lengths: &mut [usize],
) -> Result<usize, NegativeLoop>
    requires { Safe m d k v cost head size (memory_of dist.old queue.old queued.old lengths.old) }
    ensures { ArcRelaxed m p d k v cost head size
        (memory_of dist.old queue.old queued.old lengths.old)
        (memory_of dist.new queue.new queued.new lengths.new) (is_err result) (result_unwrap_or result 0) }
{
    let n = whole::plus(d, cost);
    if !better(n, dist[v]) {
        Ok(size)
    } else if p <= k + 1 {
        Err(NegativeLoop)
    } else {
        dist[v] = n;
        lengths[v] = k + 1;
        Ok(push(m, head, size, queue, queued, v))
    }
}

// Every arc of the row of u, which was taken from the ring.
// Its distance and path length are read before the first arc, so that they belong to one walk.
fn relax_row(
    m: usize,
    p: usize,
    source: usize,
    u: usize,
    head: usize,
    waiting: usize,
    lists: &Lists<i64>,
    dist: &mut [i64],
    queue: &mut [usize],
    queued: &mut [usize],
    lengths: &mut [usize],
) -> Result<usize, NegativeLoop>
    requires fit { Fit m p source (lists_in lists.now) }
    requires fact { Open m p source
        (lists_in lists.now) u
        (get_or dist.old u (pos 0)) (get_or lengths.old u 0) (get_or lists.now.offsets.now u 0) head waiting
        (memory_of dist.old queue.old queued.old lengths.old) }
    ensures { RowDone m p source
        (lists_in lists.now) head waiting
        (memory_of dist.old queue.old queued.old lengths.old)
        (memory_of dist.new queue.new queued.new lengths.new) (is_err result) (result_unwrap_or result 0) }
{
    let d = dist[u];
    let k = lengths[u];
    let mut size: usize = waiting;
    let (heads, weights) = (&*lists.heads, &*lists.weights);
    for i in lists.offsets[u]..lists.offsets[u + 1] {
        let v = usize::from(heads[i]);
        size = relax_arc(
            m, p, d, k, v, weights[i], head, size, dist, queue, queued, lengths,
        )?;
    }
    Ok(size)
}

// The search from a source that the map has. An error where a closed walk below zero is in its reach.
fn search(
    m: usize,
    p: usize,
    source: usize,
    lists: &Lists<i64>,
    dist: &mut [i64],
    queue: &mut [usize],
    queued: &mut [usize],
    lengths: &mut [usize],
) -> Result<(), NegativeLoop>
    requires fit { Fit m p source (lists_in lists.now) }
    requires fresh { Fresh m (memory_of dist.old queue.old queued.old lengths.old) }
    ensures { Searched m source
        (lists_in lists.now)
        (memory_of dist.old queue.old queued.old lengths.old)
        (memory_of dist.new queue.new queued.new lengths.new) (is_err result) }
{
    dist[source] = 0;
    let mut size: usize = push(m, 0, 0, queue, queued, source);
    let mut head: usize = 0;
    // no counting loop: a turn may add indices to the ring, and it goes on until none waits
    while 0 < size {
        let u = queue[head];
        queued[u] = 0;
        head = slot(m, head, 1);
        size = relax_row(
            m,
            p,
            source,
            u,
            head,
            size - 1,
            lists,
            dist,
            queue,
            queued,
            lengths,
        )?;
    }
    Ok(())
}

// Is each buffer as long as the part used?
#[tactic(auto, unfolding(crate::specs::Promise::long_enough))]
fn long_enough(m: usize, a: usize, dist: &[i64], lists: &Lists<i64>, ring: &Ring) -> bool
    ensures { result ≡ long_enough m a (buffers_in dist.now lists.now ring.now) }
{
    lists.long_enough(m, a) && m <= dist.len() && ring.long_enough(m)
}

// Limit where a limit is passed or a lent slice is too short, Index where a link names an index that the map has not.
#[tactic(auto, unfolding(crate::specs::Parts::refusal_no))]
fn refusal(net: Lent<Ints>, dist: &[i64], lists: &Lists<i64>, ring: &Ring) -> Result<(), Refusal>
    ensures { number_of result ≡ refusal_no (int_net net.entry) (buffers_in dist.now lists.now ring.now) }
{
    if !net.whole() || !long_enough(net.map.bound, net.most_arcs(), dist, lists, ring) {
        Err(Refusal::Limit)
    } else if !net.inside() {
        Err(Refusal::Index)
    } else {
        Ok(())
    }
}

// The neighbour list is made, and the search run on it. The same error.
fn solve(
    net: Lent<Ints>,
    source: usize,
    dist: &mut [i64],
    lists: &mut Lists<i64>,
    ring: &mut Ring,
) -> Result<(), NegativeLoop>
    requires { Ripe (int_net net) source (buffers_in dist.old lists.old ring.old) }
    ensures solved { Solved (int_net net.entry) source (buffers_in dist.old lists.old ring.old)
        (buffers_in dist.new lists.new ring.new) (is_err result) }
    ensures same_lists { SameLists lists.old lists.new }
    ensures same_ring { SameRing ring.old ring.new }
{
    let m = net.map.bound;
    rows::position_csr(net, lists);
    let p = net::count_present(m, net.marks);
    search(
        m,
        p,
        source,
        lists,
        dist,
        ring.queue,
        ring.queued,
        ring.lengths,
    )
}

// The least totals from a source. The promise is in specs/Promise.antt.
pub fn bellman_ford(
    net: Lent<Ints>,
    source: usize,
    dist: &mut [i64],
    lists: &mut Lists<i64>,
    ring: &mut Ring,
) -> Result<(), Refusal>
    ensures promise { Promise (int_net net.entry) source (buffers_in dist.old lists.old ring.old)
        (buffers_in dist.new lists.new ring.new) (number_of result) }
    ensures same_lists { SameLists lists.old lists.new }
    ensures same_ring { SameRing ring.old ring.new }
{
    refusal(net, dist, lists, ring)?;
    let m = net.map.bound;
    let a = net.most_arcs();
    clean::fill(dist, m, clean::NONE_I64);
    if !net.has(source) {
        lists.wipe(m, a, 0);
        ring.wipe(m);
        return Ok(());
    }
    ring.prepare(m);
    let found = solve(net, source, dist, lists, ring);
    lists.wipe(m, a, 0);
    ring.wipe(m);
    match found {
        Ok(()) => Ok(()),
        Err(NegativeLoop) => {
            clean::fill(dist, m, clean::NONE_I64);
            Err(Refusal::Negative)
        }
    }
}
