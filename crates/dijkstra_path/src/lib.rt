// The f64 search: the pending bag over a neighbour list of open arcs, with a cutoff.
// Distances and keys are lent as patterns, so that the promise settles every bit of them; none is the pattern of -1.0.
#![tactic(auto)]

ghost use Rattle.std.specs.Prelude.{◌≡◌};
ghost use Rattle.numbers.specs.Refusal.{number_of};
ghost use Rattle.net.specs.Net.{float_net};
ghost use Rattle.rows.specs.Rows.{SameLists};
ghost use Rattle.search.specs.Lists.{SameMemory};
ghost use Rattle.dijkstra_path.specs.Promise.{Promise, buffers_in};

use net::{Floats, Lent};
use numbers::Refusal;
use rows::{Lists, Neighbours};
use search::{Limited, Memory};

// Distances and predecessors from a source over the open arcs, up to a cutoff, in the memory. The promise is in specs/Promise.antt.
pub fn dijkstra_path_impl(
    net: Lent<Floats>,
    source: usize,
    cutoff: Option<f64>,
    lists: &mut Lists<u64>,
    memory: &mut Memory<u64>,
) -> Result<(), Refusal>
    ensures promise { Promise (float_net net.entry) source cutoff (buffers_in lists.old memory.old)
        (buffers_in lists.new memory.new) (number_of result) }
    ensures same_lists { SameLists lists.old lists.new }
    ensures same_memory { SameMemory memory.old memory.new }
{
    search::check(&net, source, lists, memory)?;
    let m = net.map.bound;
    let a = net.most_arcs();
    rows::position_csr(net, lists);
    let limit = float::limit(cutoff);
    // each is lent `&mut` and then shared: a `&` of a field gets no generated proof here
    let offsets = &mut *lists.offsets;
    let heads = &mut *lists.heads;
    let weights = &mut *lists.weights;
    let rows = Neighbours {
        offsets,
        heads,
        weights,
    };
    let found = search::run(Limited { limit }, m, source, None, rows, memory);
    lists.wipe(m, a, 0);
    memory.wipe_bag(m, 0);
    match found {
        Ok(_) => Ok(()),
        Err(bad) => {
            clean::fill(memory.preds, m, clean::NONE_U32);
            clean::fill(memory.dist, m, clean::NONE_F64);
            Err(bad.into())
        }
    }
}

// The same under the name that the open links alone are fed to: closed ones are passed over here.
pub fn dijkstra_path_f64(
    net: Lent<Floats>,
    source: usize,
    cutoff: Option<f64>,
    lists: &mut Lists<u64>,
    memory: &mut Memory<u64>,
) -> Result<(), Refusal>
    ensures promise { Promise (float_net net.entry) source cutoff (buffers_in lists.old memory.old)
        (buffers_in lists.new memory.new) (number_of result) }
    ensures same_lists { SameLists lists.old lists.new }
    ensures same_memory { SameMemory memory.old memory.new }
{
    dijkstra_path_impl(net, source, cutoff, lists, memory)
}
