// The map of a case: directed or not, its bound, its marks, then its records, which are put one after the other.
// A record that is refused makes the line no case.
use crate::reads::Line;
use hops::{Scratch, Table};
use net::{Costs, Lent};
use table::Map;

// The most indices of a case.
const INDICES: usize = 6;

// The most records of a case.
pub const RECORDS: usize = 12;

// The map without its links.
pub fn read_head(line: &mut Line<'_>, marks: &mut [u8]) -> Option<Map> {
    let directed = line.flag()?;
    let bound = line.whole(INDICES)?;
    for mark in marks.iter_mut().take(bound) {
        *mark = u8::from(line.flag()?);
    }
    Some(Map::empty(bound, directed))
}

// hops, of a map of either kind: number, count of nodes, nodes, size of the matrix, matrix.
pub fn replay_hops<C: Costs>(net: Lent<'_, C>, line: &mut Line<'_>) -> Option<bool> {
    let mut table = Table {
        nodes: &mut [0; 8],
        matrix: &mut [0; 64],
    };
    let mut scratch = Scratch {
        offsets: &mut [0; 9],
        heads: &mut [0; 32],
        labels: &mut [0; 8],
        queue: &mut [0; 9],
    };
    let counted = hops::hops(net, &mut table, &mut scratch);
    match line.number()? {
        0 => {
            let count = line.index()?;
            let nodes = line.same(table.nodes, count)?;
            let size = line.index()?;
            let matrix = line.same(table.matrix, size)?;
            Some(counted == Ok(count) && nodes && count.checked_mul(count) == Some(size) && matrix)
        }
        refusal => Some(numbers::number(counted) == refusal),
    }
}
