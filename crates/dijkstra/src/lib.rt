// Least totals from one source over costs that are not below zero.
#![tactic(auto)]

ghost use Rattle.std.specs.Prelude.{◌≡◌};
ghost use Rattle.numbers.specs.Refusal.{number_of};
ghost use Rattle.net.specs.Net.{int_net};
ghost use Rattle.rows.specs.Rows.{SameLists};
ghost use Rattle.search.specs.Lists.{SameMemory};
ghost use Rattle.dijkstra.specs.Promise.{Promise, buffers_in};

use net::{Ints, Lent};
use numbers::Refusal;
use rows::{Lists, Neighbours};
use search::Memory;

// The least totals from a source, in the distances. The promise is in specs/Promise.antt.
pub fn dijkstra(
    net: Lent<Ints>,
    source: usize,
    lists: &mut Lists<i64>,
    memory: &mut Memory<i64>,
) -> Result<(), Refusal>
    ensures promise { Promise (int_net net.entry) source (buffers_in lists.old memory.old)
        (buffers_in lists.new memory.new) (number_of result) }
    ensures same_lists { SameLists lists.old lists.new }
    ensures same_memory { SameMemory memory.old memory.new }
{
    search::check(&net, source, lists, memory)?;
    let m = net.map.bound;
    let a = net.most_arcs();
    rows::position_csr(net, lists);
    // each is lent `&mut` and then shared: a `&` of a field gets no generated proof here
    let offsets = &mut *lists.offsets;
    let heads = &mut *lists.heads;
    let weights = &mut *lists.weights;
    let rows = Neighbours {
        offsets,
        heads,
        weights,
    };
    let found = search::to_all(m, source, rows, memory);
    lists.wipe(m, a, 0);
    memory.wipe_bag(m, 0);
    clean::fill(memory.preds, m, 0);
    match found {
        Ok(_) => Ok(()),
        Err(bad) => {
            clean::fill(memory.dist, m, clean::NONE_I64);
            Err(bad.into())
        }
    }
}
