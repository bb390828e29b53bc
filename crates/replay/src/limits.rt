// The limits of a map, each just kept and just passed. A line for each: its name and the number given.
use net::{Ints, Lent};
use numbers::Refusal;
use rows::Lists;
use search::Memory;
use std::io;
use table::Map;

// The line of a limit.
fn put_line(rt: &impl Print, name: &str, number: usize) -> io::Result<()> {
    println!(rt; "{name} {number}")
}

// dijkstra from the last index of a map of this bound and count, all present, with room for one more index and one more link than allowed.
fn ask(bound: usize, count: usize, from: &[u16], to: &[u16], costs: &[i32]) -> usize {
    let map = Map {
        bound,
        count,
        directed: true,
    };
    let net = Lent {
        map,
        marks: &[1; 1025],
        from,
        to,
        costs: Ints { costs },
    };
    let mut lists = Lists {
        offsets: &mut [0; 1026],
        heads: &mut [0; 8193],
        weights: &mut [0; 8193],
    };
    let mut memory = Memory {
        dist: &mut [0; 1025],
        preds: &mut [0; 1025],
        peaks: &mut [0; 1025],
        words: &mut [0; 1025],
        keys: &mut [0; 1025],
    };
    numbers::number(dijkstra::dijkstra(net, 1023, &mut lists, &mut memory))
}

// 1,024 indices are answered, 1,025 refused.
pub fn indices(rt: &impl Print) -> io::Result<()> {
    put_line(rt, "indices 1024:", ask(1024, 0, &[], &[], &[]))?;
    put_line(rt, "indices 1025:", ask(1025, 0, &[], &[], &[]))
}

// A record between these ends, put. Gives the count then.
fn put_one(
    count: usize,
    from: &mut [u16],
    to: &mut [u16],
    costs: &mut [i32],
    a: u16,
    b: u16,
) -> Result<usize, Refusal> {
    let map = Map {
        bound: 1024,
        count,
        directed: true,
    };
    table::put(map, &[1; 1024], from, to, costs, a, b, 1)
}

// Puts links of different ends until one is refused, and gives how many were taken.
fn fill(from: &mut [u16], to: &mut [u16], costs: &mut [i32]) -> usize {
    let mut count = 0;
    for k in 0..9000 {
        match put_one(count, from, to, costs, k / 1024, k % 1024) {
            Ok(more) => count = more,
            Err(_) => break,
        }
    }
    count
}

// Link 8,192 is put, link 8,193 refused, though the slices have room; one sent again is taken.
// A question on 8,192 links is answered, on 8,193 refused.
pub fn links(rt: &impl Print) -> io::Result<()> {
    let mut from = [0; 8193];
    let mut to = [0; 8193];
    let mut costs = [0; 8193];
    let count = fill(&mut from, &mut to, &mut costs);
    put_line(rt, "links put:", count)?;
    let more = put_one(count, &mut from, &mut to, &mut costs, 9, 0);
    put_line(rt, "link 8193:", numbers::number(more))?;
    let again = put_one(count, &mut from, &mut to, &mut costs, 7, 1023);
    put_line(rt, "link 8192 again:", numbers::number(again))?;
    put_line(
        rt,
        "question on 8192 links:",
        ask(1024, 8192, &from, &to, &costs),
    )?;
    put_line(
        rt,
        "question on 8193 links:",
        ask(1024, 8193, &from, &to, &costs),
    )
}

// a_star from 0 to 1 over one link, with this heuristic at both.
fn guess(rt: &impl Print, name: &str, h: i64) -> io::Result<()> {
    let map = Map {
        bound: 2,
        count: 1,
        directed: true,
    };
    let net = Lent {
        map,
        marks: &[1, 1],
        from: &[0],
        to: &[1],
        costs: Ints { costs: &[5] },
    };
    let mut lists = Lists {
        offsets: &mut [0; 3],
        heads: &mut [0; 1],
        weights: &mut [0; 1],
    };
    let mut memory = Memory {
        dist: &mut [0; 2],
        preds: &mut [0; 2],
        peaks: &mut [0; 2],
        words: &mut [0; 2],
        keys: &mut [0; 2],
    };
    let found = a_star::a_star(net, 0, 1, &[h, h], &mut [0; 2], &mut lists, &mut memory);
    put_line(rt, name, numbers::number(found))
}

// A heuristic of 2^42 either way is taken, one more refused.
pub fn heuristics(rt: &impl Print) -> io::Result<()> {
    guess(rt, "heuristic 2^42:", 4398046511104)?;
    guess(rt, "heuristic 2^42 + 1:", 4398046511105)?;
    guess(rt, "heuristic -2^42:", -4398046511104)?;
    guess(rt, "heuristic -2^42 - 1:", -4398046511105)
}
