// How many arcs the shortest walks between all pairs have, by a breadth-first search from each index.
#![tactic(auto)]

ghost use Rattle.std.specs.Prelude.{◌≡◌, ◌+◌, ◌*◌, ◌≤◌, ◌<◌, length, get_or};
ghost use Rattle.numbers.specs.Refusal.{number_of, count_after};
ghost use Rattle.net.specs.Net.{net_in, rising, most_arcs};
ghost use Rattle.table.specs.Links.{present};
ghost use Rattle.rows.specs.Rows.{end_lists};
ghost use Rattle.rows.specs.RowArc.{Sound};
ghost use Rattle.hops.specs.Search.{RowLeads, label_of, size_after, Met, Open, RowDone, Fresh, Searched};
ghost use Rattle.hops.specs.Search.{shown_of, CanShow, RowShown, CanRow, RowMade, CanFill, Filled};
ghost use Rattle.hops.specs.Promise.{Promise, buffers_in, SameTable, SameScratch, long_enough};
ghost use Rattle.hops.specs.Parts.{refusal_no, ends_in, EnoughScratch, Wiped, RipeIn, Solved, Answered};

use net::{Costs, Lent};
use numbers::Refusal;

// What a call fills: the nodes, and the matrix of the numbers of arcs between them.
#[derive(Drop)]
pub struct Table<'a> {
    pub nodes: &'a mut [u32],
    pub matrix: &'a mut [u32],
}

// What a call works in: the neighbour list, and the labels and the queue of a search.
#[derive(Drop)]
pub struct Scratch<'a> {
    pub offsets: &'a mut [usize],
    pub heads: &'a mut [u16],
    pub labels: &'a mut [usize],
    pub queue: &'a mut [usize],
}

// The neighbour list of a map, which a search only reads.
#[derive(Clone, Copy)]
struct Rows<'a> {
    bound: usize,
    offsets: &'a [usize],
    heads: &'a [u16],
    ghost sound: { Sound bound (end_lists offsets.now heads.now) },
}

// The label of an index that is looked at: the one it had, or the next one where it had none.
fn label_of(had: usize, next: usize) -> usize
    ensures { result ≡ label_of had next }
{
    if had == 0 { next } else { had }
}

// How many stand in the queue after an index was looked at.
fn size_after(had: usize, size: usize) -> usize
    requires { size ≤ 1024 }
    ensures { result ≡ size_after had size }
{
    if had == 0 { size + 1 } else { size }
}

// Look at the index v: one not seen yet gets the label and goes to the end of the queue. Gives how many stand there.
// Both slices are stored to in any case, so that no branch has to be guessed:
// an index seen before is written behind the queue, where it does not count.
fn meet(v: usize, label: usize, size: usize, labels: &mut [usize], queue: &mut [usize]) -> usize
    requires { (v < length labels.old) × (size ≤ 1024) × (size < length queue.old) }
    ensures { Met v label size labels.old queue.old labels.new queue.new result }
{
    let had = labels[v];
    labels[v] = label_of(had, label);
    queue[size] = v;
    size_after(had, size)
}

// Look at every arc of the row of u, which stands at a place of the queue.
fn expand(
    rows: Rows,
    source: usize,
    u: usize,
    place: usize,
    waiting: usize,
    labels: &mut [usize],
    queue: &mut [usize],
) -> usize
    requires { Open rows.bound source rows.offsets.now rows.heads.now u (get_or labels.old u 0)
        (get_or rows.offsets.now u 0) place waiting labels.old queue.old }
    ensures { RowDone rows.entry.bound source rows.entry.offsets.now rows.entry.heads.now place labels.old queue.old
        labels.new queue.new result }
{
    let next = labels[u] + 1;
    let heads = rows.heads;
    let mut size = waiting;
    for i in rows.offsets[u]..rows.offsets[u + 1] {
        size = meet(usize::from(heads[i]), next, size, labels, queue);
    }
    size
}

// The search from a source: the label of each index in reach. It ends early where every index has one.
fn search(rows: Rows, source: usize, labels: &mut [usize], queue: &mut [usize])
    requires { Fresh rows.bound source labels.old queue.old }
    ensures { Searched rows.entry.bound source
        (RowLeads rows.entry.bound rows.entry.offsets.now rows.entry.heads.now) labels.old queue.old labels.new
        queue.new }
{
    let mut size = meet(source, 1, 0, labels, queue);
    let mut head = 0;
    // A worklist: the queue grows in each turn, so a `for` does not know its end.
    while head < size && size < rows.bound {
        let u = queue[head];
        size = expand(rows, source, u, head, size, labels, queue);
        head += 1;
    }
}

// A label as the matrix shows it.
fn shown(label: usize) -> u32
    requires { label ≤ 1024 }
    ensures { result ≡ shown_of label }
{
    if label == 0 {
        clean::NONE_U32
    } else {
        (label - 1) as u32
    }
}

// Write the row of the matrix that starts at a place, from the labels of the nodes.
fn show_row(p: usize, at: usize, nodes: &[u32], labels: &[usize], matrix: &mut [u32])
    requires { CanShow p at nodes.now labels.now matrix.old }
    ensures { RowShown p at nodes.now labels.now matrix.old matrix.new }
{
    for (j, v) in nodes[..p].iter().enumerate() {
        matrix[at + j] = shown(labels[*v as usize]);
    }
}

// Make the row of one source: a search on clean labels, shown.
fn make_row(
    rows: Rows,
    p: usize,
    source: usize,
    at: usize,
    nodes: &[u32],
    labels: &mut [usize],
    queue: &mut [usize],
    matrix: &mut [u32],
)
    requires { CanRow rows.bound p source at nodes.now labels.old queue.old matrix.old }
    ensures { RowMade rows.entry.bound p source at
        (RowLeads rows.entry.bound rows.entry.offsets.now rows.entry.heads.now) nodes.now labels.old queue.old
        matrix.old labels.new queue.new matrix.new }
{
    clean::fill(labels, rows.bound, 0);
    search(rows, source, labels, queue);
    show_row(p, at, nodes, labels, matrix);
}

// Make every row, in the order of the nodes.
#[tactic(auto, using(matrix::proofs::Matrix::row_in))]
fn fill(
    rows: Rows,
    p: usize,
    nodes: &[u32],
    labels: &mut [usize],
    queue: &mut [usize],
    matrix: &mut [u32],
)
    requires { CanFill rows.bound p nodes.now labels.old queue.old matrix.old }
    ensures { Filled rows.entry.bound p p
        (RowLeads rows.entry.bound rows.entry.offsets.now rows.entry.heads.now) nodes.now labels.old queue.old
        matrix.old labels.new queue.new matrix.new }
{
    for (i, node) in nodes[..p].iter().enumerate() {
        let source = *node as usize;
        make_row(rows, p, source, i * p, nodes, labels, queue, matrix);
    }
}

// List the nodes and fill the matrix, by the ends of the links alone. Gives p.
fn solve<C: Costs>(net: Lent<C>, table: &mut Table, scratch: &mut Scratch) -> usize
    requires { RipeIn net table.old scratch.old }
    ensures solved { Solved (ends_in net.entry) (buffers_in table.old scratch.old) (buffers_in table.new scratch.new) result }
    ensures same_table { SameTable table.old table.new }
    ensures same_scratch { SameScratch scratch.old scratch.new }
{
    let bound = net.map.bound;
    let p = net::list_nodes(bound, net.marks, table.nodes);
    let offsets = &mut *scratch.offsets;
    let heads = &mut *scratch.heads;
    rows::position_csr_ends(net, offsets, heads);
    let rows = Rows {
        bound,
        offsets,
        heads,
    };
    let nodes = &mut *table.nodes;
    let labels = &mut *scratch.labels;
    let queue = &mut *scratch.queue;
    let matrix = &mut *table.matrix;
    fill(rows, p, nodes, labels, queue, matrix);
    p
}

impl<'a> Scratch<'a> {
    // Zero in the part used of each slice, for m indices and a arcs.
    fn wipe(&mut self, m: usize, a: usize)
        requires { EnoughScratch m a self.old.offsets.now self.old.heads.now self.old.labels.now self.old.queue.now }
        ensures wiped { Wiped m a self.old.offsets.now self.old.heads.now self.old.labels.now self.old.queue.now
            self.new.offsets.now self.new.heads.now self.new.labels.now self.new.queue.now }
        ensures same { SameScratch self.old self.new }
    {
        clean::fill(self.offsets, m + 1, 0);
        clean::fill(self.heads, a, 0);
        clean::fill(self.labels, m, 0);
        clean::fill(self.queue, m + 1, 0);
    }
}

// The answer for a map of either kind that is not refused. Gives p.
fn answer<C: Costs>(net: Lent<C>, table: &mut Table, scratch: &mut Scratch) -> usize
    requires { RipeIn net table.old scratch.old }
    ensures answered { Answered (ends_in net.entry) (buffers_in table.old scratch.old) (buffers_in table.new scratch.new) result }
    ensures same_table { SameTable table.old table.new }
    ensures same_scratch { SameScratch scratch.old scratch.new }
{
    let m = net.map.bound;
    let a = net.most_arcs();
    let p = solve(net, table, scratch);
    scratch.wipe(m, a);
    p
}

// Is each buffer as long as its part used?
#[tactic(auto, unfolding(crate::specs::Promise::long_enough))]
fn long_enough<C: Costs>(net: &Lent<C>, table: &Table, scratch: &Scratch) -> bool
    requires { (net.now.map.bound ≤ 1024) × (net.now.map.count ≤ 8192)
        × (net.now.map.bound ≤ length net.now.marks.now) }
    ensures { result ≡ long_enough net.now.map.bound (most_arcs net.now.map.directed net.now.map.count)
        (length (rising (present net.now.map.bound net.now.marks.now) net.now.map.bound))
        (buffers_in table.now scratch.now) }
{
    let m = net.map.bound;
    let a = net.most_arcs();
    let p = net::count_present(m, net.marks);
    p <= table.nodes.len()
        && p * p <= table.matrix.len()
        && m + 1 <= scratch.offsets.len()
        && a <= scratch.heads.len()
        && m <= scratch.labels.len()
        && m + 1 <= scratch.queue.len()
}

// The refusals: Limit where a limit is passed or a lent slice is too short, then Index.
#[tactic(auto, unfolding(crate::specs::Parts::refusal_no))]
fn refusal<C: Costs>(net: &Lent<C>, table: &Table, scratch: &Scratch) -> Result<(), Refusal>
    ensures { number_of result
        ≡ refusal_no (net_in C.listed C.room net.now) (buffers_in table.now scratch.now) }
{
    if !net.whole() || !long_enough(net, table, scratch) {
        return Err(Refusal::Limit);
    }
    if !net.inside() {
        return Err(Refusal::Index);
    }
    Ok(())
}

// The nodes and the least numbers of arcs between all pairs of them, of a map of either kind. Gives how many nodes there are.
// The promise is in specs/Promise.antt.
pub fn hops<C: Costs>(
    net: Lent<C>,
    table: &mut Table,
    scratch: &mut Scratch,
) -> Result<usize, Refusal>
    ensures promise { Promise (net_in C.listed C.room net.entry) (buffers_in table.old scratch.old)
        (buffers_in table.new scratch.new) (number_of result) (count_after 0 result) }
    ensures same_table { SameTable table.old table.new }
    ensures same_scratch { SameScratch scratch.old scratch.new }
{
    refusal(&net, table, scratch)?;
    Ok(answer(net, table, scratch))
}
