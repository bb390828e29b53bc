// The C functions: each hands over to the function of its name in the crate `dimetumble`, and promises the same.
// They stand in a crate of their own, since a crate is a library or a static library.
#![tactic(auto)]

ghost use Rattle.std.specs.Prelude.{◌≡◌, ◌≤◌};
ghost use Rattle.table.specs.Links.{link_of};
ghost use Rattle.table.specs.Lent.{ints_now, put_ints, floats_now, raw_cost, put_floats};
ghost use Rattle.net.specs.Net.{net_of, net_of64};
ghost use Rattle.dijkstra.specs.Promise as dijkstra;
ghost use Rattle.a_star.specs.Promise as a_star;
ghost use Rattle.dijkstra_path.specs.Promise as dijkstra_path;
ghost use Rattle.bellman_ford.specs.Promise as bellman_ford;
ghost use Rattle.floyd_warshall.specs.Promise as floyd_warshall;
ghost use Rattle.johnson.specs.Promise as johnson;
ghost use Rattle.hops.specs.Promise as hops;
ghost use Rattle.page.specs.Promise as page_check;
ghost use Rattle.dimetumble.specs.Flags.{is_set, limit_of};

// Put a record into an integer map.
#[unsafe(no_mangle)]
pub extern "C" fn dimetumble_put(
    bound: usize,
    count: &mut usize,
    directed: u8,
    marks: &[u8],
    from: &mut [u16],
    to: &mut [u16],
    costs: &mut [i32],
    a: u16,
    b: u16,
    cost: i32,
) -> usize
    ensures { ints_now result count.new from.new to.new costs.new
        ≡ put_ints (is_set directed) bound marks.now (link_of a b cost) count.old from.old to.old
        costs.old }
{
    dimetumble::dimetumble_put(bound, count, directed, marks, from, to, costs, a, b, cost)
}

// Put a record into an f64 map.
#[unsafe(no_mangle)]
pub extern "C" fn dimetumble_put_f64(
    bound: usize,
    count: &mut usize,
    directed: u8,
    marks: &[u8],
    from: &mut [u16],
    to: &mut [u16],
    bits: &mut [u64],
    opens: &mut [u8],
    a: u16,
    b: u16,
    pattern: u64,
    opened: u8,
) -> usize
    ensures { floats_now result count.new from.new to.new bits.new opens.new
        ≡ put_floats (is_set directed) bound marks.now (link_of a b (raw_cost pattern opened)) count.old
        from.old to.old bits.old opens.old }
{
    dimetumble::dimetumble_put_f64(
        bound, count, directed, marks, from, to, bits, opens, a, b, pattern, opened,
    )
}

// The least totals from a source, of costs that are not below zero.
#[unsafe(no_mangle)]
pub extern "C" fn dimetumble_dijkstra<'a>(
    bound: usize,
    count: usize,
    directed: u8,
    marks: &[u8],
    from: &[u16],
    to: &[u16],
    costs: &[i32],
    source: usize,
    dist: &'a mut [i64],
    offsets: &'a mut [usize],
    heads: &'a mut [u16],
    weights: &'a mut [i64],
    preds: &'a mut [u32],
    peaks: &'a mut [usize],
    words: &'a mut [usize],
    keys: &'a mut [i64],
) -> usize
    ensures { dijkstra.Promise
        (net_of bound count (is_set directed) marks.now from.now to.now costs.now) source
        (dijkstra.buffers_of dist.old offsets.old heads.old weights.old preds.old
        peaks.old words.old keys.old)
        (dijkstra.buffers_of dist.new offsets.new heads.new weights.new preds.new
        peaks.new words.new keys.new) result }
{
    dimetumble::dimetumble_dijkstra(
        bound, count, directed, marks, from, to, costs, source, dist, offsets, heads, weights,
        preds, peaks, words, keys,
    )
}

// The cost and the path from a source to a target, by a heuristic.
#[unsafe(no_mangle)]
pub extern "C" fn dimetumble_a_star<'a>(
    bound: usize,
    count: usize,
    directed: u8,
    marks: &[u8],
    from: &[u16],
    to: &[u16],
    costs: &[i32],
    source: usize,
    target: usize,
    guess: &[i64],
    cost: &mut i64,
    length: &mut usize,
    path: &'a mut [u32],
    offsets: &'a mut [usize],
    heads: &'a mut [u16],
    weights: &'a mut [i64],
    dist: &'a mut [i64],
    preds: &'a mut [u32],
    peaks: &'a mut [usize],
    words: &'a mut [usize],
    keys: &'a mut [i64],
) -> usize
    ensures { a_star.Promise
        (net_of bound count (is_set directed) marks.now from.now to.now costs.now)
        (a_star.question_of source target guess.now)
        (a_star.buffers_of path.old offsets.old heads.old weights.old dist.old
        preds.old peaks.old words.old keys.old)
        (a_star.buffers_of path.new offsets.new heads.new weights.new dist.new
        preds.new peaks.new words.new keys.new)
        (a_star.answer_of result cost.new length.new) }
{
    dimetumble::dimetumble_a_star(
        bound, count, directed, marks, from, to, costs, source, target, guess, cost, length, path,
        offsets, heads, weights, dist, preds, peaks, words, keys,
    )
}

// Distances and predecessors from a source over the open arcs, up to a cutoff.
#[unsafe(no_mangle)]
pub extern "C" fn dimetumble_dijkstra_path_impl<'a>(
    bound: usize,
    count: usize,
    directed: u8,
    marks: &[u8],
    from: &[u16],
    to: &[u16],
    bits: &[u64],
    opens: &[u8],
    source: usize,
    capped: u8,
    cutoff: f64,
    dist: &'a mut [u64],
    preds: &'a mut [u32],
    offsets: &'a mut [usize],
    heads: &'a mut [u16],
    weights: &'a mut [u64],
    peaks: &'a mut [usize],
    words: &'a mut [usize],
    keys: &'a mut [u64],
) -> usize
    ensures { dijkstra_path.Promise
        (net_of64 bound count (is_set directed) marks.now from.now to.now bits.now
        opens.now) source (limit_of capped cutoff)
        (dijkstra_path.buffers_of dist.old preds.old offsets.old heads.old weights.old
        peaks.old words.old keys.old)
        (dijkstra_path.buffers_of dist.new preds.new offsets.new heads.new weights.new
        peaks.new words.new keys.new) result }
{
    dimetumble::dimetumble_dijkstra_path_impl(
        bound, count, directed, marks, from, to, bits, opens, source, capped, cutoff, dist, preds,
        offsets, heads, weights, peaks, words, keys,
    )
}

// The same under its second name: the two questions have one promise.
#[unsafe(no_mangle)]
pub extern "C" fn dimetumble_dijkstra_path_f64<'a>(
    bound: usize,
    count: usize,
    directed: u8,
    marks: &[u8],
    from: &[u16],
    to: &[u16],
    bits: &[u64],
    opens: &[u8],
    source: usize,
    capped: u8,
    cutoff: f64,
    dist: &'a mut [u64],
    preds: &'a mut [u32],
    offsets: &'a mut [usize],
    heads: &'a mut [u16],
    weights: &'a mut [u64],
    peaks: &'a mut [usize],
    words: &'a mut [usize],
    keys: &'a mut [u64],
) -> usize
    ensures { dijkstra_path.Promise
        (net_of64 bound count (is_set directed) marks.now from.now to.now bits.now
        opens.now) source (limit_of capped cutoff)
        (dijkstra_path.buffers_of dist.old preds.old offsets.old heads.old weights.old
        peaks.old words.old keys.old)
        (dijkstra_path.buffers_of dist.new preds.new offsets.new heads.new weights.new
        peaks.new words.new keys.new) result }
{
    dimetumble::dimetumble_dijkstra_path_f64(
        bound, count, directed, marks, from, to, bits, opens, source, capped, cutoff, dist, preds,
        offsets, heads, weights, peaks, words, keys,
    )
}

// The least totals from a source, of signed costs.
#[unsafe(no_mangle)]
pub extern "C" fn dimetumble_bellman_ford<'a>(
    bound: usize,
    count: usize,
    directed: u8,
    marks: &[u8],
    from: &[u16],
    to: &[u16],
    costs: &[i32],
    source: usize,
    dist: &'a mut [i64],
    offsets: &'a mut [usize],
    heads: &'a mut [u16],
    weights: &'a mut [i64],
    queue: &'a mut [usize],
    queued: &'a mut [usize],
    lengths: &'a mut [usize],
) -> usize
    ensures { bellman_ford.Promise
        (net_of bound count (is_set directed) marks.now from.now to.now costs.now) source
        (bellman_ford.buffers_of dist.old offsets.old heads.old weights.old queue.old
        queued.old lengths.old)
        (bellman_ford.buffers_of dist.new offsets.new heads.new weights.new queue.new
        queued.new lengths.new) result }
{
    dimetumble::dimetumble_bellman_ford(
        bound, count, directed, marks, from, to, costs, source, dist, offsets, heads, weights,
        queue, queued, lengths,
    )
}

// The least totals between all pairs of nodes.
#[unsafe(no_mangle)]
pub extern "C" fn dimetumble_floyd_warshall(
    bound: usize,
    count: usize,
    directed: u8,
    marks: &[u8],
    from: &[u16],
    to: &[u16],
    costs: &[i32],
    matrix: &mut [i64],
    ranks: &mut [usize],
) -> usize
    ensures { floyd_warshall.Promise
        (net_of bound count (is_set directed) marks.now from.now to.now costs.now)
        matrix.old ranks.old matrix.new ranks.new result }
{
    dimetumble::dimetumble_floyd_warshall(
        bound, count, directed, marks, from, to, costs, matrix, ranks,
    )
}

// The least totals between all pairs of nodes, by potentials.
#[unsafe(no_mangle)]
pub extern "C" fn dimetumble_johnson<'a>(
    bound: usize,
    count: usize,
    directed: u8,
    marks: &[u8],
    from: &[u16],
    to: &[u16],
    costs: &[i32],
    matrix: &'a mut [i64],
    offsets: &'a mut [usize],
    heads: &'a mut [u16],
    weights: &'a mut [i64],
    heights: &'a mut [i64],
    dist: &'a mut [i64],
    preds: &'a mut [u32],
    peaks: &'a mut [usize],
    words: &'a mut [usize],
    keys: &'a mut [i64],
) -> usize
    ensures { johnson.Promise
        (net_of bound count (is_set directed) marks.now from.now to.now costs.now)
        matrix.old
        (johnson.scratch_of offsets.old heads.old weights.old heights.old dist.old
        preds.old peaks.old words.old keys.old) matrix.new
        (johnson.scratch_of offsets.new heads.new weights.new heights.new dist.new
        preds.new peaks.new words.new keys.new) result }
{
    dimetumble::dimetumble_johnson(
        bound, count, directed, marks, from, to, costs, matrix, offsets, heads, weights, heights,
        dist, preds, peaks, words, keys,
    )
}

// The nodes and the least numbers of arcs between all pairs of them, of an integer map.
#[unsafe(no_mangle)]
pub extern "C" fn dimetumble_hops<'a>(
    bound: usize,
    count: usize,
    directed: u8,
    marks: &[u8],
    from: &[u16],
    to: &[u16],
    costs: &[i32],
    listed: &mut usize,
    nodes: &'a mut [u32],
    matrix: &'a mut [u32],
    offsets: &'a mut [usize],
    heads: &'a mut [u16],
    labels: &'a mut [usize],
    queue: &'a mut [usize],
) -> usize
    ensures { hops.Promise
        (net_of bound count (is_set directed) marks.now from.now to.now costs.now)
        (hops.buffers_of nodes.old matrix.old offsets.old heads.old labels.old
        queue.old)
        (hops.buffers_of nodes.new matrix.new offsets.new heads.new labels.new
        queue.new) result listed.new }
{
    dimetumble::dimetumble_hops(
        bound, count, directed, marks, from, to, costs, listed, nodes, matrix, offsets, heads,
        labels, queue,
    )
}

// The nodes and the least numbers of arcs between all pairs of them, of an f64 map.
#[unsafe(no_mangle)]
pub extern "C" fn dimetumble_hops_f64<'a>(
    bound: usize,
    count: usize,
    directed: u8,
    marks: &[u8],
    from: &[u16],
    to: &[u16],
    bits: &[u64],
    opens: &[u8],
    listed: &mut usize,
    nodes: &'a mut [u32],
    matrix: &'a mut [u32],
    offsets: &'a mut [usize],
    heads: &'a mut [u16],
    labels: &'a mut [usize],
    queue: &'a mut [usize],
) -> usize
    ensures { hops.Promise
        (net_of64 bound count (is_set directed) marks.now from.now to.now bits.now
        opens.now)
        (hops.buffers_of nodes.old matrix.old offsets.old heads.old labels.old
        queue.old)
        (hops.buffers_of nodes.new matrix.new offsets.new heads.new labels.new
        queue.new) result listed.new }
{
    dimetumble::dimetumble_hops_f64(
        bound, count, directed, marks, from, to, bits, opens, listed, nodes, matrix, offsets,
        heads, labels, queue,
    )
}

// Are the distances of a page those that the arcs allow?
#[unsafe(no_mangle)]
pub extern "C" fn dimetumble_page(
    bound: usize,
    count: usize,
    directed: u8,
    marks: &[u8],
    from: &[u16],
    to: &[u16],
    costs: &[i32],
    source: usize,
    page: &[i64],
    yes: &mut u8,
) -> usize
    ensures { (page_check.Promise
        (net_of bound count (is_set directed) marks.now from.now to.now costs.now) source
        page.now
        (page_check.answer_of result (is_set yes.new)))
        × (yes.new ≤ 1) }
{
    dimetumble::dimetumble_page(
        bound, count, directed, marks, from, to, costs, source, page, yes,
    )
}
