// The questions of integer maps on a case of the list, with room for 8 indices and 16 links: no case has more.
use crate::maps;
use crate::reads::{Entry, Line};
use bellman_ford::Ring;
use net::{Ints, Lent};
use numbers::Refusal;
use rows::Lists;
use search::Memory;
use table::Map;

// The map of a case.
#[derive(Drop)]
pub struct Case {
    map: Map,
    marks: [u8; 8],
    from: [u16; 16],
    to: [u16; 16],
    costs: [i32; 16],
}

// What a search gives that borrows this memory.
fn with_memory<R, F: FnOnce(&mut Lists<'_, i64>, &mut Memory<'_, i64>) -> R>(search: F) -> R
    requires { F.IsAlwaysCallable search }
{
    let mut lists = Lists {
        offsets: &mut [0; 9],
        heads: &mut [0; 32],
        weights: &mut [0; 32],
    };
    let mut memory = Memory {
        dist: &mut [0; 8],
        preds: &mut [0; 8],
        peaks: &mut [0; 8],
        words: &mut [0; 8],
        keys: &mut [0; 8],
    };
    search(&mut lists, &mut memory)
}

// Number, and after 0 the distances.
fn see_distances(
    done: Result<(), Refusal>,
    dist: &[i64],
    n: usize,
    line: &mut Line<'_>,
) -> Option<bool> {
    match line.number()? {
        0 => Some(line.same(dist, n)? && done.is_ok()),
        refusal => Some(numbers::number(done) == refusal),
    }
}

// Number, and after 0 the size of the matrix, which has p rows, and its entries.
fn see_matrix(
    done: Result<(), Refusal>,
    matrix: &[i64],
    p: usize,
    line: &mut Line<'_>,
) -> Option<bool> {
    match line.number()? {
        0 => {
            let size = line.index()?;
            let same = line.same(matrix, size)?;
            Some(done.is_ok() && p.checked_mul(p) == Some(size) && same)
        }
        refusal => Some(numbers::number(done) == refusal),
    }
}

impl Case {
    // Reads the map and puts its records.
    pub fn read(line: &mut Line<'_>) -> Option<Case> {
        let mut marks = [0; 8];
        let mut from = [0; 16];
        let mut to = [0; 16];
        let mut costs = [0; 16];
        let mut map = maps::read_head(line, &mut marks)?;
        for _ in 0..line.whole(maps::RECORDS)? {
            let a = line.end()?;
            let b = line.end()?;
            let cost = i32::try_from(line.signed()?).ok()?;
            map.count = table::put(map, &marks, &mut from, &mut to, &mut costs, a, b, cost).ok()?;
        }
        Some(Case {
            map,
            marks,
            from,
            to,
            costs,
        })
    }

    // The map, lent.
    fn net(&self) -> Lent<'_, Ints<'_>> {
        Lent {
            map: self.map,
            marks: &self.marks,
            from: &self.from,
            to: &self.to,
            costs: Ints { costs: &self.costs },
        }
    }

    // How many indices are present.
    fn present(&self) -> usize {
        self.marks.iter().filter(|mark| **mark != 0).count()
    }

    // dijkstra: source; number, distances.
    pub fn dijkstra(&self, line: &mut Line<'_>) -> Option<bool> {
        let source = line.index()?;
        with_memory(|lists, memory| {
            let done = dijkstra::dijkstra(self.net(), source, lists, memory);
            see_distances(done, memory.dist, self.map.bound, line)
        })
    }

    // bellman_ford: source; number, distances.
    pub fn bellman_ford(&self, line: &mut Line<'_>) -> Option<bool> {
        let source = line.index()?;
        let mut dist = [0; 8];
        let mut lists = Lists {
            offsets: &mut [0; 9],
            heads: &mut [0; 32],
            weights: &mut [0; 32],
        };
        let mut ring = Ring {
            queue: &mut [0; 8],
            queued: &mut [0; 8],
            lengths: &mut [0; 8],
        };
        let done = bellman_ford::bellman_ford(self.net(), source, &mut dist, &mut lists, &mut ring);
        see_distances(done, &dist, self.map.bound, line)
    }

    // a_star: source, target, heuristic; number, cost, length, path.
    pub fn a_star(&self, line: &mut Line<'_>) -> Option<bool> {
        let source = line.index()?;
        let target = line.index()?;
        let mut guess = [0; 8];
        for h in guess.iter_mut().take(self.map.bound) {
            *h = line.signed()?;
        }
        let mut path = [0; 8];
        let found = with_memory(|lists, memory| {
            a_star::a_star(self.net(), source, target, &guess, &mut path, lists, memory)
        });
        match line.number()? {
            0 => {
                let cost = i64::read(line)?;
                let length = line.index()?;
                let same = line.same(&path, self.map.bound)?;
                let route = found.map(|route| route.map_or(
                    (clean::NONE_I64, 0),
                    |route| (route.cost, route.length),
                ));
                Some(route == Ok((cost, length)) && same)
            }
            refusal => Some(numbers::number(found) == refusal),
        }
    }

    // floyd_warshall: number, size of the matrix, matrix.
    pub fn floyd_warshall(&self, line: &mut Line<'_>) -> Option<bool> {
        let mut matrix = [0; 64];
        let done = floyd_warshall::floyd_warshall(self.net(), &mut matrix, &mut [0; 8]);
        see_matrix(done, &matrix, self.present(), line)
    }

    // johnson: number, size of the matrix, matrix.
    pub fn johnson(&self, line: &mut Line<'_>) -> Option<bool> {
        let mut matrix = [0; 64];
        let done = with_memory(|lists, memory| {
            johnson::johnson(self.net(), &mut matrix, lists, &mut [0; 8], memory)
        });
        see_matrix(done, &matrix, self.present(), line)
    }

    // hops.
    pub fn hops(&self, line: &mut Line<'_>) -> Option<bool> {
        maps::replay_hops(self.net(), line)
    }
}
