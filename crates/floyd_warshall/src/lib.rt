// `floyd_warshall`: the least totals between all pairs of a lent map. What it promises is in specs/Promise.antt.
#![tactic(auto)]

ghost use Rattle.std.specs.Prelude.{◌≡◌, ◌≤◌, ◌<◌, ◌^◌, pos, length, IfOk};
ghost use Rattle.table.specs.Links.{links};
ghost use Rattle.numbers.specs.Refusal.{number_of};
ghost use Rattle.net.specs.Net.{int_net, width};
ghost use Rattle.floyd_warshall.specs.Promise.{Promise};
ghost use Rattle.floyd_warshall.specs.Rounds.{block, Block, reaching, any_below, Strided, Begun, Rounded};
ghost use Rattle.floyd_warshall.specs.Filling.{Square, Started, Sound, Ranked, linked, poured};
ghost use Rattle.floyd_warshall.specs.Filling.{Costs32Below, shown, MatrixShown, Solved, refusal_no};

use net::{Ints, Lent};
use numbers::Refusal;

// What stands for "no walk" in the rounds: 2^50, far from every total.
const FAR: i64 = 1 << 50;

// Entries from 2^49 on are no totals. A sum with the large number may lie below it, but never so low.
const NO_TOTAL: i64 = 1 << 49;

// How many columns are lowered between two tests of the diagonal: so few that they are compiled without a loop.
const BLOCK: usize = 16;

// The same near the end of a row, and one by one where fewer are left.
const SMALL: usize = 4;

// Is one of n entries below zero, which stand first, first + step, ..?
fn any_below(cells: &[i64], first: usize, step: usize, n: usize) -> bool
    requires { Strided first step n cells.now }
    ensures { result ≡ any_below cells.now first step n }
{
    (0..n).any(|i| cells[first + i * step] < 0)
}

// Can a row change whose entry in column k is a? Not if there is no walk to k, unless row k has an entry below zero.
#[tactic(auto, unfolding(crate::specs::Rounds::reaching))]
fn reaches(falls: bool, a: i64) -> bool
    ensures { result ≡ reaching falls a }
{
    falls || a < FAR
}

// The N entries from one place on, each lowered to the sum of a and the entry as far from the other, where that is smaller.
fn lower_block<const N: usize>(cells: &mut [i64], at: usize, by: usize, a: i64)
    requires { Block at by a N cells.old }
    ensures { cells.new ≡ block at by a N cells.old }
{
    for x in 0..N {
        cells[at + x] = cells[at + x].min(a + cells[by + x]);
    }
}

// The next block of a row that has so many columns left, lowered: how many columns are in it?
fn lower_next(cells: &mut [i64], at: usize, by: usize, a: i64, left: usize) -> usize
    requires { (0 < left) × Block at by a left cells.old }
    ensures { (0 < result) × (result ≤ left) × (cells.new ≡ block at by a result cells.old) }
{
    if left < SMALL {
        lower_block::<1>(cells, at, by, a);
        1
    } else if left < BLOCK {
        lower_block::<SMALL>(cells, at, by, a);
        SMALL
    } else {
        lower_block::<BLOCK>(cells, at, by, a);
        BLOCK
    }
}

// The rounds. The columns go by blocks, and a test follows each: the first diagonal entry below zero ends all three loops. No sum overflows
// until then, nor in the rest of that block, which is made of entries from before the round.
#[tactic(auto, using(matrix::proofs::Matrix::place_in))]
fn rounds(cells: &mut [i64], p: usize) -> bool
    requires { Begun p cells.old }
    ensures { Rounded p cells.old cells.new result }
{
    let mut below = false;
    'rounds: for k in 0..p {
        let through = k * p;
        let falls = any_below(cells, through, 1, p);
        'rows: for i in 0..p {
            let row = i * p;
            let a = cells[row + k];
            if reaches(falls, a) {
                let mut j = 0;

                // No counting loop: each block tells how many columns it was.
                'columns: while j < p {
                    j += lower_next(cells, row + j, through + j, a, p - j);
                    let diagonal = cells[row + i];
                    if diagonal < 0 {
                        below = true;
                        break 'rounds;
                    }
                }
            }
        }
    }
    below
}

// No arcs yet: the large number for each pair, but 0 on the diagonal.
fn start(cells: &mut [i64], p: usize)
    requires { Square p cells.old }
    ensures { Started p cells.new }
{
    clean::fill(cells, p * p, FAR);
    for i in 0..p {
        cells[i * p + i] = 0;
    }
}

// The arcs of one link between two rows.
fn put_link(directed: bool, p: usize, cells: &mut [i64], i: usize, j: usize, cost: i32)
    requires { Square p cells.old × (i < p) × (j < p) }
    ensures { cells.new ≡ linked directed p cells.old i j cost }
{
    let cost = i64::from(cost);
    let x = i * p + j;
    cells[x] = cells[x].min(cost);
    if !directed {
        let y = j * p + i;
        cells[y] = cells[y].min(cost);
    }
}

// The arcs of every link.
fn fill(net: Lent<Ints>, ranks: &[usize], p: usize, cells: &mut [i64])
    requires { Sound (int_net net) × Ranked (int_net net) ranks.now × (p ≡ width (int_net net)) × Square p cells.old }
    ensures { Costs32Below net.entry.costs.costs.now net.entry.map.count
        × (cells.new ≡ poured net.entry.map.directed p ranks.now
        (links net.entry.map.count net.entry.from.now net.entry.to.now net.entry.costs.costs.now) cells.old) }
{
    for e in 0..net.map.count {
        let a = usize::from(net.from[e]);
        let b = usize::from(net.to[e]);
        let cost = net.costs.costs[e];
        put_link(net.map.directed, p, cells, ranks[a], ranks[b], cost);
    }
}

// An entry as it is shown: none where there is no walk.
#[tactic(auto, unfolding(crate::specs::Filling::shown))]
fn shown_of(z: i64) -> i64
    ensures { result ≡ shown z }
{
    if z < NO_TOTAL { z } else { clean::NONE_I64 }
}

// Each entry as it is shown.
fn show(cells: &mut [i64])
    ensures { MatrixShown cells.old cells.new }
{
    for cell in cells.iter_mut() {
        *cell = shown_of(*cell);
    }
}

// The answer to a sound map, in a matrix of just the entries used: is there a closed walk below zero?
fn solve(net: Lent<Ints>, ranks: &[usize], p: usize, cells: &mut [i64]) -> bool
    requires { Sound (int_net net) × Ranked (int_net net) ranks.now × (p ≡ width (int_net net)) × Square p cells.old }
    ensures { Solved (int_net net.entry) result cells.new }
{
    start(cells, p);
    fill(net, ranks, p, cells);
    if any_below(cells, 0, p + 1, p) || rounds(cells, p) {
        return true;
    }
    show(cells);
    false
}

// How many nodes the map has, unless a limit is passed, a lent slice is too short, or a link names an index that the map has not.
fn width_of(net: Lent<Ints>, matrix: &[i64], ranks: &[usize]) -> Result<usize, Refusal>
    ensures number { number_of result ≡ refusal_no (int_net net.entry) matrix.now ranks.now }
    ensures counted { IfOk result (λ p. p ≡ width (int_net net.entry)) }
{
    if !net.whole() || ranks.len() < net.map.bound {
        return Err(Refusal::Limit);
    }
    let p = net::count_present(net.map.bound, net.marks);
    if matrix.len() < p * p {
        Err(Refusal::Limit)
    } else if net.inside() {
        Ok(p)
    } else {
        Err(Refusal::Index)
    }
}

// The least totals between all pairs of nodes. Limit where a lent slice is too short or a limit is passed, Index where a link names
// an index that the map has not, Negative where a closed walk totals below zero.
pub fn floyd_warshall(
    net: Lent<Ints>,
    matrix: &mut [i64],
    ranks: &mut [usize],
) -> Result<(), Refusal>
    ensures { Promise (int_net net.entry) matrix.old ranks.old matrix.new ranks.new (number_of result) }
{
    let p = width_of(net, matrix, ranks)?;
    let m = net.map.bound;
    let used = p * p;
    net::set_ranks(m, net.marks, ranks);
    let negative = solve(net, ranks, p, &mut matrix[..used]);
    clean::fill(ranks, m, 0);
    if negative {
        clean::fill(matrix, used, clean::NONE_I64);
        return Err(Refusal::Negative);
    }
    Ok(())
}
