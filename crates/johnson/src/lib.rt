// All-pairs totals by potentials: rounds over all arcs, of which the last tests for a closed walk below zero,
// then one search per index over shifted costs.
#![tactic(auto)]

ghost use Rattle.std.specs.Prelude.{◌≡◌, ℕ, ◌*◌, ◌≤◌, ◌<◌, ◌^◌, pos, length, get_or};
ghost use Rattle.whole.specs.Zed.{◌⊕◌, ◌⊖◌, Within};
ghost use Rattle.numbers.specs.Refusal.{number_of};
ghost use Rattle.johnson.specs.Rounds.{label, lowers, lowered, table_in, Shallow, Linked, Deep, LinkRelaxed, Swept};
ghost use Rattle.johnson.specs.Potentials.{Ask, Answered};
ghost use Rattle.rows.specs.Rows.{lists_of, lists_in, SameLists};
ghost use Rattle.net.specs.Net.{int_net};
ghost use Rattle.johnson.specs.Shifting.{shifted_back, Listed, ShiftedTo, RowShifted};
ghost use Rattle.johnson.specs.Promise.{Promise, scratch, enough};
ghost use Rattle.search.specs.Lists.{memory_in, SameMemory};
ghost use Rattle.turns.specs.Firsts.{EnoughMemory, KeptMemory};
ghost use Rattle.johnson.specs.Parts.{Moderate, CanShow, RowShown, CanFill, Filled};
ghost use Rattle.johnson.specs.Parts.{Ripe, Prepared, refusal_no, Passed, Solved};

use net::{Ints, Lent};
use numbers::Refusal;
use rows::{Lists, Neighbours};
use search::Memory;

// A look at an arc from u to v: the potential of v falls, or stays. Did it fall?
fn relax(u: usize, v: usize, cost: i32, heights: &mut [i64]) -> bool
    requires { (u < length heights.old) × (v < length heights.old) × Deep (2 ^ 60) (label heights.old u) }
    ensures { (result ≡ lowers u v cost heights.old)
        × (heights.new ≡ lowered u v cost heights.old) }
{
    let sum = heights[u] + i64::from(cost);
    if sum < heights[v] {
        heights[v] = sum;
        true
    } else {
        false
    }
}

// A look at a link, both ways if it is not directed: did a potential fall?
fn relax_link(directed: bool, u: usize, v: usize, cost: i32, heights: &mut [i64]) -> bool
    requires { (u < length heights.old) × (v < length heights.old) × ((x : ℕ) → Deep (2 ^ 59) (label heights.old x)) }
    ensures { LinkRelaxed directed u v cost heights.old heights.new result }
{
    let there = relax(u, v, cost, heights);
    let back = !directed && relax(v, u, cost, heights);
    there || back
}

// One round over the links of the map, in table order: did a potential fall?
fn round(net: Lent<Ints>, heights: &mut [i64]) -> bool
    requires { Linked (length heights.old) net.map.count (table_in net)
        × Shallow (length heights.old) (1023 * 16384) heights.old }
    ensures { Swept (table_in net.entry) net.entry.map.count heights.old heights.new result }
{
    let mut fell = false;
    for k in 0..net.map.count {
        let u = usize::from(net.from[k]);
        let v = usize::from(net.to[k]);
        fell |= relax_link(net.map.directed, u, v, net.costs.costs[k], heights);
    }
    fell
}

// The potentials of a map of p indices, from 0: is some closed walk below zero? None is once no potential falls in a round;
// one is where a potential still falls in the p-th. The promise is in specs/Potentials.antt.
fn potentials(net: Lent<Ints>, p: usize, heights: &mut [i64]) -> bool
    requires { Ask (table_in net) net.map.count p heights.old }
    ensures { Answered (table_in net.entry) net.entry.map.count p heights.old heights.new result }
{
    for _round in 1..p {
        if !round(net, heights) {
            return false;
        }
    }
    round(net, heights)
}

// A number shifted by two potentials, as a weight is by those of its arc's ends, and a distance back: none is far from 0, so the sum fits.
fn shift(x: i64, up: i64, down: i64) -> i64
    requires { Within (2 ^ 60) x × Deep (2 ^ 59) up × Deep (2 ^ 59) down }
    ensures { result ≡ x ⊕ up ⊖ down }
{
    x + up - down
}

// The weights of the row of u are shifted.
fn shift_row(
    m: usize,
    u: usize,
    offsets: &[usize],
    heads: &[u16],
    heights: &[i64],
    weights: &mut [i64],
)
    requires { (u < m) × Listed m u (lists_of offsets.now heads.now weights.old) heights.now }
    ensures { RowShifted m u offsets.now heads.now heights.now weights.old
        weights.new }
{
    for i in offsets[u]..offsets[u + 1] {
        weights[i] = shift(weights[i], heights[u], heights[usize::from(heads[i])]);
    }
}

// The weights of every arc of the neighbour list are shifted.
fn shift_all(m: usize, offsets: &[usize], heads: &[u16], heights: &[i64], weights: &mut [i64])
    requires { Listed m 0 (lists_of offsets.now heads.now weights.old) heights.now }
    ensures { ShiftedTo m
        (lists_of offsets.now heads.now weights.old) heights.now weights.new
        (get_or offsets.now m 0) }
{
    for u in 0..m {
        shift_row(m, u, offsets, heads, heights, weights);
    }
}

// The neighbour list of the map with its weights shifted by the potentials, or true where some closed walk is below zero.
fn prepare(net: Lent<Ints>, lists: &mut Lists<i64>, heights: &mut [i64]) -> bool
    requires { Ripe (int_net net) (lists_in lists.old) heights.old }
    ensures prepared { Prepared (int_net net.entry) (lists_in lists.old) (lists_in lists.new) heights.new result }
    ensures same { SameLists lists.old lists.new }
{
    let m = net.map.bound;
    let p = net::count_present(m, net.marks);
    clean::fill(heights, m, 0);
    if potentials(net, p, heights) {
        return true;
    }
    rows::position_csr(net, lists);
    // each is lent `&mut`: a `&` beside it gets no generated proof
    let offsets = &mut *lists.offsets;
    let heads = &mut *lists.heads;
    let weights = &mut *lists.weights;
    shift_all(m, offsets, heads, heights, weights);
    false
}

// What was found from s to v, shifted back; none stays none.
#[tactic(auto, unfolding(crate::specs::Shifting::shifted_back))]
fn shift_back(heights: &[i64], dist: &[i64], s: usize, v: usize) -> i64
    requires { (s < length heights.now) × (v < length heights.now) × (v < length dist.now) × Moderate (get_or dist.now v (pos 0))
        × Deep (2 ^ 59) (label heights.now s) × Deep (2 ^ 59) (label heights.now v) }
    ensures { result ≡ shifted_back heights.now s v (get_or dist.now v (pos 0)) }
{
    if clean::NONE_I64 < dist[v] {
        shift(dist[v], heights[v], heights[s])
    } else {
        clean::NONE_I64
    }
}

// The row of the matrix that starts at a place, from what was found from s.
fn show_row(
    m: usize,
    at: usize,
    s: usize,
    marks: &[u8],
    heights: &[i64],
    memory: &Memory<i64>,
    matrix: &mut [i64],
)
    requires { CanShow m at s marks.now heights.now memory.now.dist.now matrix.old }
    ensures { RowShown m at s m marks.now heights.now memory.now.dist.now matrix.old matrix.new }
{
    let mut j = 0;
    for v in 0..m {
        if marks[v] != 0 {
            matrix[at + j] = shift_back(heights, memory.dist, s, v);
            j += 1;
        }
    }
}

// The row of every present index, in rising order.
fn fill(
    m: usize,
    p: usize,
    marks: &[u8],
    lists: &Lists<i64>,
    heights: &[i64],
    matrix: &mut [i64],
    memory: &mut Memory<i64>,
)
    requires { CanFill m p marks.now (lists_in lists.now) heights.now matrix.old × EnoughMemory m (memory_in memory.old) }
    ensures filled { Filled m p m marks.now (lists_in lists.now) heights.now matrix.old matrix.new }
    ensures kept { KeptMemory m (memory_in memory.old) (memory_in memory.new) }
    ensures same { SameMemory memory.old memory.new }
{
    let rows = Neighbours {
        offsets: &*lists.offsets,
        heads: &*lists.heads,
        weights: &*lists.weights,
    };
    let mut i = 0;
    for u in 0..m {
        if marks[u] != 0 {
            // no weight is below zero, so no cost is bad
            let _ = search::to_all(m, u, rows, memory);
            show_row(m, i * p, u, marks, heights, memory, matrix);
            i += 1;
        }
    }
}

// The list is prepared and every row made, on the part used of each slice. True where some closed walk is below zero.
fn solve(
    net: Lent<Ints>,
    matrix: &mut [i64],
    lists: &mut Lists<i64>,
    heights: &mut [i64],
    memory: &mut Memory<i64>,
) -> bool
    requires { Passed (int_net net) matrix.old (scratch (lists_in lists.old) heights.old (memory_in memory.old)) }
    ensures solved { Solved (int_net net.entry) matrix.old
        (scratch (lists_in lists.old) heights.old (memory_in memory.old)) matrix.new
        (scratch (lists_in lists.new) heights.new (memory_in memory.new)) result }
    ensures same { SameLists lists.old lists.new × SameMemory memory.old memory.new }
{
    let m = net.map.bound;
    if prepare(net, lists, &mut heights[..m]) {
        return true;
    }
    let p = net::count_present(m, net.marks);
    fill(m, p, net.marks, lists, &heights[..m], matrix, memory);
    false
}

// Are the limits kept, and is each slice as long as the part used?
#[tactic(auto, unfolding(crate::specs::Promise::long_enough))]
fn enough(
    net: Lent<Ints>,
    matrix: &[i64],
    lists: &Lists<i64>,
    heights: &[i64],
    memory: &Memory<i64>,
) -> bool
    ensures { result
        ≡ enough (int_net net.entry) matrix.now
        (scratch (lists_in lists.now) heights.now (memory_in memory.now)) }
{
    if !net.whole() {
        return false;
    }
    let m = net.map.bound;
    let p = net::count_present(m, net.marks);
    p * p <= matrix.len()
        && lists.long_enough(m, net.most_arcs())
        && m <= heights.len()
        && memory.long_enough(m)
}

// A limit is passed or a lent slice is too short, or a link names an index that the map has not.
#[tactic(auto, unfolding(crate::specs::Parts::refusal_no))]
fn refusal(
    net: Lent<Ints>,
    matrix: &[i64],
    lists: &Lists<i64>,
    heights: &[i64],
    memory: &Memory<i64>,
) -> Result<(), Refusal>
    ensures { number_of result
        ≡ refusal_no (int_net net.entry) matrix.now
        (scratch (lists_in lists.now) heights.now (memory_in memory.now)) }
{
    if !enough(net, matrix, lists, heights, memory) {
        Err(Refusal::Limit)
    } else if !net.inside() {
        Err(Refusal::Index)
    } else {
        Ok(())
    }
}

// The least totals between all pairs of nodes. Limit where a limit is passed or a lent slice is too short, Index where a link names
// an index that the map has not, Negative where a closed walk totals below zero. The promise is in specs/Promise.antt.
pub fn johnson(
    net: Lent<Ints>,
    matrix: &mut [i64],
    lists: &mut Lists<i64>,
    heights: &mut [i64],
    memory: &mut Memory<i64>,
) -> Result<(), Refusal>
    ensures promise { Promise (int_net net.entry) matrix.old
        (scratch (lists_in lists.old) heights.old (memory_in memory.old)) matrix.new
        (scratch (lists_in lists.new) heights.new (memory_in memory.new)) (number_of result) }
    ensures same { SameLists lists.old lists.new × SameMemory memory.old memory.new }
{
    refusal(net, matrix, lists, heights, memory)?;
    let m = net.map.bound;
    let negative = solve(net, matrix, lists, heights, memory);
    lists.wipe(m, net.most_arcs(), 0);
    clean::fill(heights, m, 0);
    memory.wipe(m, 0);
    if negative {
        let p = net::count_present(m, net.marks);
        clean::fill(matrix, p * p, clean::NONE_I64);
        Err(Refusal::Negative)
    } else {
        Ok(())
    }
}
