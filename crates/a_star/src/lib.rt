// A path from a source to a target by a heuristic.
#![tactic(auto)]

ghost use Rattle.std.specs.Prelude.{true, false, ◌≡◌, ◌≤◌, ◌<◌, pos, length, get_or};
ghost use Rattle.table.specs.Links.{present};
ghost use Rattle.numbers.specs.Refusal.{number_of};
ghost use Rattle.net.specs.Net.{int_net, ArcOf, whole_net, most_arcs_of};
ghost use Rattle.rows.specs.Rows.{SameLists};
ghost use Rattle.search.specs.Found.{number_of as found_no};
ghost use Rattle.search.specs.Lists.{SameMemory};
ghost use Rattle.a_star.specs.Promise.{Promise, question_of, answer_in, HasIndex, buffers_in, scratch_in};
ghost use Rattle.a_star.specs.Promise.{long_enough, is_fair, fair_below, at_front, wiped_all};
ghost use Rattle.a_star.specs.Trail.{trail, GoesBack};
ghost use Rattle.a_star.specs.Parts.{question_no, refusal_no, EnoughScratch, CanSeek, Ripe, Sought, Told, Read, Solved};

use net::{Ints, Lent};
use numbers::Refusal;
use rows::{Lists, Neighbours};
use search::{BadCost, Guided, Memory};

// A path that was found: its cost, and how many indices it has.
#[derive(Clone, Copy, Debug, PartialEq, Eq)]
pub struct Route {
    pub cost: i64,
    pub length: usize,
}

// How far from 0 a heuristic may be: 2^42.
const MOST: i64 = 4398046511104;

// Is a heuristic within -2^42 ..= 2^42?
#[tactic(auto, unfolding(crate::specs::Promise::is_fair))]
fn fair(h: i64) -> bool
    ensures { result ≡ is_fair h }
{
    (-MOST..=MOST).contains(&h)
}

// Is the heuristic of each index that the map has?
fn all_fair(m: usize, marks: &[u8], guess: &[i64]) -> bool
    requires { (m ≤ length marks.now) × (m ≤ length guess.now) }
    ensures { result ≡ fair_below (present m marks.now) guess.now m }
{
    marks[..m]
        .iter()
        .zip(&guess[..m])
        .all(|(mark, h)| *mark == 0 || fair(*h))
}

// Is each slice as long as the part used?
#[tactic(auto, unfolding(crate::specs::Promise::long_enough))]
fn long_enough(
    m: usize,
    a: usize,
    guess: &[i64],
    path: &[u32],
    lists: &Lists<i64>,
    memory: &Memory<i64>,
) -> bool
    ensures { result ≡ long_enough m a guess.now (buffers_in path.now lists.now memory.now) }
{
    m <= guess.len() && m <= path.len() && lists.long_enough(m, a) && memory.long_enough(m)
}

// Index where a link names an index that the map has not, Source where the source is one,
// Target where the target is, Heuristic where a heuristic is too far from 0.
#[tactic(auto, unfolding(crate::specs::Parts::question_no))]
fn question(net: Lent<Ints>, source: usize, target: usize, guess: &[i64]) -> Result<(), Refusal>
    requires whole { whole_net (int_net net) ≡ true }
    requires guess_long { net.map.bound ≤ length guess.now }
    ensures { number_of result ≡ question_no (int_net net.entry) (question_of source target guess.now) }
{
    if !net.inside() {
        Err(Refusal::Index)
    } else if !net.has(source) {
        Err(Refusal::Source)
    } else if !net.has(target) {
        Err(Refusal::Target)
    } else if !all_fair(net.map.bound, net.marks, guess) {
        Err(Refusal::Heuristic)
    } else {
        Ok(())
    }
}

// Limit where a limit is passed or a lent slice is too short, then as above.
#[tactic(auto, unfolding(crate::specs::Parts::refusal_no, crate::specs::Parts::question_no))]
fn refusal(
    net: Lent<Ints>,
    source: usize,
    target: usize,
    guess: &[i64],
    path: &[u32],
    lists: &Lists<i64>,
    memory: &Memory<i64>,
) -> Result<(), Refusal>
    ensures { number_of result ≡ refusal_no (int_net net.entry) (question_of source target guess.now)
        (buffers_in path.now lists.now memory.now) }
{
    if !net.whole() || !long_enough(net.map.bound, net.most_arcs(), guess, path, lists, memory) {
        Err(Refusal::Limit)
    } else {
        question(net, source, target, guess)
    }
}

// The neighbour list is made, and the search run on it.
fn seek(
    net: Lent<Ints>,
    source: usize,
    target: usize,
    guess: &[i64],
    lists: &mut Lists<i64>,
    memory: &mut Memory<i64>,
) -> Result<usize, BadCost>
    requires { CanSeek net.map.bound net.map.count net.map.directed net.from.now net.to.now net.costs.costs.now
        (question_of source target guess.now) (scratch_in lists.old memory.old) }
    ensures sought { Sought (ArcOf (int_net net.entry)) net.entry.map.bound (most_arcs_of (int_net net.entry))
        (question_of source target guess.now) (scratch_in lists.old memory.old) (scratch_in lists.new memory.new)
        (found_no result) }
    ensures same_lists { SameLists lists.old lists.new }
    ensures same_memory { SameMemory memory.old memory.new }
{
    rows::position_csr(net, lists);
    // each is lent `&mut` and then shared: a `&` of a field gets no generated proof here
    let offsets = &mut *lists.offsets;
    let heads = &mut *lists.heads;
    let weights = &mut *lists.weights;
    let rows = Neighbours {
        offsets,
        heads,
        weights,
    };
    search::run(
        Guided { guess },
        net.map.bound,
        source,
        Some(target),
        rows,
        memory,
    )
}

// Writes the path from the source to v at the front of `path`:
// goes back by at most `left` arcs, and writes on return. Gives how many indices it has.
// It calls itself: a loop from v on meets the indices the other way round, and would have to turn the path about.
fn write_path(preds: &[u32], source: usize, v: usize, left: usize, path: &mut [u32]) -> usize
    requires preds_len_bound { length preds.now ≤ 1024 }
    requires goes_back { GoesBack preds.now source left v }
    requires left_in_bounds { left < length path.old }
    ensures value { result ≡ length (trail preds.now source left v) }
    ensures path_after { path.new ≡ at_front (trail preds.now source left v) path.old }
{
    if v == source {
        path[0] = v as u32;
        1
    } else {
        let n = write_path(preds, source, preds[v] as usize, left - 1, path);
        path[n] = v as u32;
        n + 1
    }
}

// The answer after a search: none in the path's slice, and the path if the target has a distance.
fn answer(
    found: Result<usize, BadCost>,
    m: usize,
    source: usize,
    target: usize,
    memory: &Memory<i64>,
    path: &mut [u32],
) -> Result<Option<Route>, Refusal>
    requires { Told (found_no found) m source target memory.now.dist.now memory.now.preds.now path.old }
    ensures read { Read (found_no found) m source target memory.now.dist.now memory.now.preds.now path.old path.new (answer_in result) }
    ensures route { HasIndex result }
{
    clean::fill(path, m, clean::NONE_U32);
    found?;
    let cost = memory.dist[target];
    if clean::NONE_I64 < cost {
        let length = write_path(&memory.preds[..m], source, target, m - 1, path);
        Ok(Some(Route { cost, length }))
    } else {
        Ok(None)
    }
}

// Zero in the part used of each scratch slice.
fn wipe(m: usize, a: usize, lists: &mut Lists<i64>, memory: &mut Memory<i64>)
    requires { EnoughScratch m a (scratch_in lists.old memory.old) }
    ensures wiped { scratch_in lists.new memory.new ≡ wiped_all m a (scratch_in lists.old memory.old) }
    ensures same_lists { SameLists lists.old lists.new }
    ensures same_memory { SameMemory memory.old memory.new }
{
    lists.wipe(m, a, 0);
    memory.wipe(m, 0);
}

// The search, the answer read off its lists, and the scratch wiped.
fn solve(
    net: Lent<Ints>,
    source: usize,
    target: usize,
    guess: &[i64],
    path: &mut [u32],
    lists: &mut Lists<i64>,
    memory: &mut Memory<i64>,
) -> Result<Option<Route>, Refusal>
    requires { Ripe net.map.bound net.map.count net.map.directed net.from.now net.to.now net.costs.costs.now
        (question_of source target guess.now) (buffers_in path.old lists.old memory.old) }
    ensures route { HasIndex result }
    ensures solved { Solved net.entry.map.bound net.entry.map.count net.entry.map.directed net.entry.from.now net.entry.to.now
        net.entry.costs.costs.now (question_of source target guess.now)
        (buffers_in path.old lists.old memory.old) (buffers_in path.new lists.new memory.new) (answer_in result) }
    ensures same_lists { SameLists lists.old lists.new }
    ensures same_memory { SameMemory memory.old memory.new }
{
    let found = seek(net, source, target, guess, lists, memory);
    let m = net.map.bound;
    let given = answer(found, m, source, target, memory, path);
    wipe(m, net.most_arcs(), lists, memory);
    given
}

// The cost and the path from a source to a target, or none without a walk. The promise is in specs/Promise.antt.
pub fn a_star(
    net: Lent<Ints>,
    source: usize,
    target: usize,
    guess: &[i64],
    path: &mut [u32],
    lists: &mut Lists<i64>,
    memory: &mut Memory<i64>,
) -> Result<Option<Route>, Refusal>
    ensures route { HasIndex result }
    ensures promise { Promise (int_net net.entry) (question_of source target guess.now)
        (buffers_in path.old lists.old memory.old) (buffers_in path.new lists.new memory.new) (answer_in result) }
    ensures same_lists { SameLists lists.old lists.new }
    ensures same_memory { SameMemory memory.old memory.new }
{
    refusal(net, source, target, guess, path, lists, memory)?;
    solve(net, source, target, guess, path, lists, memory)
}
