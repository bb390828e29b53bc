// The answer of each engine on a map of at most 64 indices and 512 links:
// one function asks the question on buffers of its own and prints the answer's lines, or the line of a refusal.
#![tactic(auto)]

ghost use Rattle.std.specs.Prelude.{ℕ, ◌+◌, ◌≤◌, length};
ghost use Rattle.numbers.specs.Refusal.{number_of};
ghost use Rattle.lines.specs.Text.{Printed};
ghost use Rattle.table.specs.Links.{present};
ghost use Rattle.net.specs.Net.{net_in, int_net, float_net};
ghost use Rattle.a_star.specs.Promise.{answer_in};
ghost use Rattle.text.specs.Text.{distance_lines, path_lines, row_lines, tree_lines, answer_text};
ghost use Rattle.answers.specs.Output.{Fits, most};
ghost use Rattle.answers.specs.Answers.{Written, Dijkstra, BellmanFord, AStar, FloydWarshall, Johnson, Hops, DijkstraPath};

use a_star::Route;
use bellman_ford::Ring;
use hops::{Scratch, Table};
use net::{Costs, Floats, Ints, Lent};
use numbers::Refusal;
use rows::Lists;
use search::Memory;
use text::Entry;

// Puts the refusal, or a line `index distance` for each index that the map has.
#[tactic(auto, unfolding(text::specs::Text::answer_text))]
fn say_distances(
    done: Result<(), Refusal>,
    bound: usize,
    marks: &[u8],
    dist: &[i64],
    out: &mut [u8],
    at: usize,
) -> usize
    requires { (bound ≤ 64) × (bound ≤ length marks.now) × (bound ≤ length dist.now) × (at + most ≤ length out.old) }
    ensures printed { Printed out.old at
        (answer_text (number_of done) (distance_lines (present bound marks.now) bound dist.now)) out.new result }
    ensures upper_bound { result ≤ at + most }
{
    match done {
        Ok(()) => text::print_distances(out, at, bound, marks, dist),
        Err(refusal) => text::print_refused(out, at, refusal.number()),
    }
}

// Puts the refusal, or the lines of a path.
#[tactic(auto, unfolding(text::specs::Text::answer_text))]
fn say_path(found: Result<Option<Route>, Refusal>, path: &[u32], out: &mut [u8], at: usize) -> usize
    requires { ((answer_in found).length ≤ 64) × ((answer_in found).length ≤ length path.now) × (at + most ≤ length out.old) }
    ensures printed { let r = answer_in found in
        Printed out.old at (answer_text r.number (path_lines r.cost r.length path.now)) out.new result }
    ensures upper_bound { result ≤ at + most }
{
    match found {
        Ok(Some(route)) => text::print_path(out, at, route.cost, path, route.length),
        Ok(None) => text::print_path(out, at, clean::NONE_I64, path, 0),
        Err(refusal) => text::print_refused(out, at, refusal.number()),
    }
}

// Puts the refusal, or a line `row i` with its entries for each index that the map has.
#[tactic(auto, using(crate::proofs::Rooms::rooms), unfolding(text::specs::Text::answer_text))]
fn say_rows<T: Copy, E: Entry>(
    done: Result<T, Refusal>,
    bound: usize,
    marks: &[u8],
    matrix: &[E],
    out: &mut [u8],
    at: usize,
) -> usize
    requires { (bound ≤ 64) × (bound ≤ length marks.now) × (4096 ≤ length matrix.now) × (E.widest ≤ 21)
        × (at + most ≤ length out.old) }
    ensures printed { Printed out.old at
        (answer_text (number_of done) (row_lines E.text_of (present bound marks.now) bound matrix.now)) out.new result }
    ensures upper_bound { result ≤ at + most }
{
    match done {
        Ok(_) => text::print_rows(out, at, bound, marks, matrix),
        Err(refusal) => text::print_refused(out, at, refusal.number()),
    }
}

// Puts the refusal, or a line `index bits predecessor` for each index that the map has.
#[tactic(auto, unfolding(text::specs::Text::answer_text))]
fn say_tree(
    done: Result<(), Refusal>,
    bound: usize,
    marks: &[u8],
    dist: &[u64],
    preds: &[u32],
    out: &mut [u8],
    at: usize,
) -> usize
    requires { (bound ≤ 64) × (bound ≤ length marks.now) × (bound ≤ length dist.now) × (bound ≤ length preds.now)
        × (at + most ≤ length out.old) }
    ensures printed { Printed out.old at
        (answer_text (number_of done) (tree_lines (present bound marks.now) bound dist.now preds.now))
        out.new result }
    ensures upper_bound { result ≤ at + most }
{
    match done {
        Ok(()) => text::print_tree(out, at, bound, marks, dist, preds),
        Err(refusal) => text::print_refused(out, at, refusal.number()),
    }
}

// Engine 1.
pub fn answer_dijkstra(net: Lent<Ints>, source: usize, out: &mut [u8], at: usize) -> usize
    requires { Fits net.map.bound net.marks.now out.old at }
    ensures written { Written (Dijkstra (int_net net.entry) source) out.old at out.new result }
    ensures upper_bound { result ≤ at + most }
{
    let mut offsets = [0; 65];
    let mut heads = [0; 1024];
    let mut weights = [0; 1024];
    let mut dist = [0; 64];
    let mut preds = [0; 64];
    let mut peaks = [0; 64];
    let mut words = [0; 64];
    let mut keys = [0; 64];
    let mut lists = Lists {
        offsets: &mut offsets,
        heads: &mut heads,
        weights: &mut weights,
    };
    let mut memory = Memory {
        dist: &mut dist,
        preds: &mut preds,
        peaks: &mut peaks,
        words: &mut words,
        keys: &mut keys,
    };
    let done = dijkstra::dijkstra(net, source, &mut lists, &mut memory);
    say_distances(done, net.map.bound, net.marks, &dist, out, at)
}

// Engine 2.
pub fn answer_bellman_ford(net: Lent<Ints>, source: usize, out: &mut [u8], at: usize) -> usize
    requires { Fits net.map.bound net.marks.now out.old at }
    ensures written { Written (BellmanFord (int_net net.entry) source) out.old at out.new result }
    ensures upper_bound { result ≤ at + most }
{
    let mut dist = [0; 64];
    let mut offsets = [0; 65];
    let mut heads = [0; 1024];
    let mut weights = [0; 1024];
    let mut queue = [0; 64];
    let mut queued = [0; 64];
    let mut lengths = [0; 64];
    let mut lists = Lists {
        offsets: &mut offsets,
        heads: &mut heads,
        weights: &mut weights,
    };
    let mut ring = Ring {
        queue: &mut queue,
        queued: &mut queued,
        lengths: &mut lengths,
    };
    let done = bellman_ford::bellman_ford(net, source, &mut dist, &mut lists, &mut ring);
    say_distances(done, net.map.bound, net.marks, &dist, out, at)
}

// Engine 3, with heuristic 0.
pub fn answer_a_star(
    net: Lent<Ints>,
    source: usize,
    target: usize,
    out: &mut [u8],
    at: usize,
) -> usize
    requires { Fits net.map.bound net.marks.now out.old at }
    ensures written { Written (AStar (int_net net.entry) source target) out.old at out.new result }
    ensures upper_bound { result ≤ at + most }
{
    let guess = [0; 64];
    let mut path = [0; 64];
    let mut offsets = [0; 65];
    let mut heads = [0; 1024];
    let mut weights = [0; 1024];
    let mut dist = [0; 64];
    let mut preds = [0; 64];
    let mut peaks = [0; 64];
    let mut words = [0; 64];
    let mut keys = [0; 64];
    let mut lists = Lists {
        offsets: &mut offsets,
        heads: &mut heads,
        weights: &mut weights,
    };
    let mut memory = Memory {
        dist: &mut dist,
        preds: &mut preds,
        peaks: &mut peaks,
        words: &mut words,
        keys: &mut keys,
    };
    let found = a_star::a_star(
        net,
        source,
        target,
        &guess,
        &mut path,
        &mut lists,
        &mut memory,
    );
    say_path(found, &path, out, at)
}

// Engine 4.
pub fn answer_floyd_warshall(net: Lent<Ints>, out: &mut [u8], at: usize) -> usize
    requires { Fits net.map.bound net.marks.now out.old at }
    ensures written { Written (FloydWarshall (int_net net.entry)) out.old at out.new result }
    ensures upper_bound { result ≤ at + most }
{
    let mut matrix = [0; 4096];
    let mut ranks = [0; 64];
    let done = floyd_warshall::floyd_warshall(net, &mut matrix, &mut ranks);
    say_rows(done, net.map.bound, net.marks, &matrix, out, at)
}

// Engine 5.
pub fn answer_johnson(net: Lent<Ints>, out: &mut [u8], at: usize) -> usize
    requires { Fits net.map.bound net.marks.now out.old at }
    ensures written { Written (Johnson (int_net net.entry)) out.old at out.new result }
    ensures upper_bound { result ≤ at + most }
{
    let mut matrix = [0; 4096];
    let mut offsets = [0; 65];
    let mut heads = [0; 1024];
    let mut weights = [0; 1024];
    let mut heights = [0; 64];
    let mut dist = [0; 64];
    let mut preds = [0; 64];
    let mut peaks = [0; 64];
    let mut words = [0; 64];
    let mut keys = [0; 64];
    let mut lists = Lists {
        offsets: &mut offsets,
        heads: &mut heads,
        weights: &mut weights,
    };
    let mut memory = Memory {
        dist: &mut dist,
        preds: &mut preds,
        peaks: &mut peaks,
        words: &mut words,
        keys: &mut keys,
    };
    let done = johnson::johnson(net, &mut matrix, &mut lists, &mut heights, &mut memory);
    say_rows(done, net.map.bound, net.marks, &matrix, out, at)
}

// Engine 6, on a map of either kind.
pub fn answer_hops<C: Costs>(net: Lent<C>, out: &mut [u8], at: usize) -> usize
    requires { Fits net.map.bound net.marks.now out.old at }
    ensures written { Written (Hops (net_in C.listed C.room net.entry)) out.old at out.new result }
    ensures upper_bound { result ≤ at + most }
{
    let mut nodes = [0; 64];
    let mut matrix = [0; 4096];
    let mut offsets = [0; 65];
    let mut heads = [0; 1024];
    let mut labels = [0; 64];
    let mut queue = [0; 65];
    let mut table = Table {
        nodes: &mut nodes,
        matrix: &mut matrix,
    };
    let mut scratch = Scratch {
        offsets: &mut offsets,
        heads: &mut heads,
        labels: &mut labels,
        queue: &mut queue,
    };
    let bound = net.map.bound;
    let marks = net.marks;
    let counted = hops::hops(net, &mut table, &mut scratch);
    say_rows(counted, bound, marks, table.matrix, out, at)
}

// Engine 7, without a cutoff.
pub fn answer_dijkstra_path(net: Lent<Floats>, source: usize, out: &mut [u8], at: usize) -> usize
    requires { Fits net.map.bound net.marks.now out.old at }
    ensures written { Written (DijkstraPath (float_net net.entry) source) out.old at out.new result }
    ensures upper_bound { result ≤ at + most }
{
    let mut offsets = [0; 65];
    let mut heads = [0; 1024];
    let mut weights = [0; 1024];
    let mut dist = [0; 64];
    let mut preds = [0; 64];
    let mut peaks = [0; 64];
    let mut words = [0; 64];
    let mut keys = [0; 64];
    let mut lists = Lists {
        offsets: &mut offsets,
        heads: &mut heads,
        weights: &mut weights,
    };
    let mut memory = Memory {
        dist: &mut dist,
        preds: &mut preds,
        peaks: &mut peaks,
        words: &mut words,
        keys: &mut keys,
    };
    let done = dijkstra_path::dijkstra_path_f64(net, source, None, &mut lists, &mut memory);
    say_tree(done, net.map.bound, net.marks, &dist, &preds, out, at)
}
