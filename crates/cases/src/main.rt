// The f64 cases that 01 names, on maps of three indices. A line for each:
// its name, the number, and per index the bits of the distance and the predecessor.
#![tactic(auto)]

use net::{Floats, Lent};
use rows::Lists;
use search::Memory;
use std::io;
use table::Map;

const ZERO: u64 = 0;

const MINUS_ZERO: u64 = 0x8000_0000_0000_0000;

const ONE: u64 = 0x3ff0_0000_0000_0000;

const ONE_AND_HALF: u64 = 0x3ff8_0000_0000_0000;

const MINUS_FIVE: u64 = 0xc014_0000_0000_0000;

const TWO_TO_53: u64 = 0x4340_0000_0000_0000;

const LARGEST: u64 = 0x7fef_ffff_ffff_ffff;

const INFINITE: u64 = 0x7ff0_0000_0000_0000;

const NAN: u64 = 0x7ff8_0000_0000_0000;

const MINUS_NAN: u64 = 0xfff8_0000_0000_0001;

// A distance by its bits, or none, after a space.
fn put_distance(rt: &impl Print, d: u64) -> io::Result<()> {
    if d == clean::NONE_F64 {
        print!(rt; " none")
    } else {
        print!(rt; " {d:016x}")
    }
}

// A predecessor, or none, after a space.
fn put_predecessor(rt: &impl Print, u: u32) -> io::Result<()> {
    if u == clean::NONE_U32 {
        print!(rt; " none")
    } else {
        print!(rt; " {u}")
    }
}

// The line of a case.
fn put_line(
    rt: &impl Print,
    name: &str,
    number: usize,
    dist: &[u64; 3],
    preds: &[u32; 3],
) -> io::Result<()> {
    print!(rt; "{name} {number}")?;
    for (d, u) in dist.iter().zip(preds) {
        put_distance(rt, *d)?;
        put_predecessor(rt, *u)?;
    }
    println!(rt;)
}

// The arcs 0 to 1, 1 to 2 and 0 to 2 at these patterns, open or closed by these marks, searched from 0.
fn search(
    rt: &impl Print,
    name: &str,
    bits: [u64; 3],
    opens: [u8; 3],
    cutoff: Option<f64>,
) -> io::Result<()> {
    let net = Lent {
        map: Map {
            bound: 3,
            count: 3,
            directed: true,
        },
        marks: &[1; 3],
        from: &[0, 1, 0],
        to: &[1, 2, 2],
        costs: Floats {
            bits: &bits,
            opens: &opens,
        },
    };
    let mut lists = Lists {
        offsets: &mut [0; 4],
        heads: &mut [0; 3],
        weights: &mut [0; 3],
    };
    let mut dist = [0; 3];
    let mut preds = [0; 3];
    let mut memory = Memory {
        dist: &mut dist,
        preds: &mut preds,
        peaks: &mut [0; 3],
        words: &mut [0; 3],
        keys: &mut [0; 3],
    };
    let done = dijkstra_path::dijkstra_path_f64(net, 0, cutoff, &mut lists, &mut memory);
    put_line(rt, name, numbers::number(done), &dist, &preds)
}

// The arcs 0 to 1 and 1 to 2.
fn chain(
    rt: &impl Print,
    name: &str,
    first: u64,
    second: u64,
    cutoff: Option<f64>,
) -> io::Result<()> {
    search(rt, name, [first, second, ZERO], [1, 1, 0], cutoff)
}

// The arc 0 to 1, closed, and 0 to 2.
fn closed(rt: &impl Print, name: &str, first: u64, direct: u64) -> io::Result<()> {
    search(rt, name, [first, ZERO, direct], [0, 0, 1], None)
}

// All three arcs.
fn detour(rt: &impl Print, name: &str, first: u64, second: u64, direct: u64) -> io::Result<()> {
    search(rt, name, [first, second, direct], [1, 1, 1], None)
}

// The cutoffs.
fn cutoffs(rt: &impl Print) -> io::Result<()> {
    // A total equal to the cutoff is kept, the next f64 below cuts it; so does 0.0 keep zero totals, and -0.0.
    chain(rt, "cutoff-equal", ONE_AND_HALF, ONE, Some(2.5))?;
    chain(
        rt,
        "cutoff-next-below",
        ONE_AND_HALF,
        ONE,
        Some(2.4999999999999996),
    )?;
    chain(rt, "cutoff-zero", ZERO, ONE, Some(0.0))?;
    chain(rt, "cutoff-minus-zero", ZERO, ONE, Some(-0.0))?;
    // One below zero leaves the source alone.
    chain(rt, "cutoff-minus-one", ZERO, ONE, Some(-1.0))?;
    chain(
        rt,
        "cutoff-minus-infinity",
        ZERO,
        ONE,
        Some(f64::NEG_INFINITY),
    )?;
    // No cutoff, +infinity and a NaN of either sign cut nothing.
    chain(rt, "cutoff-none", ONE_AND_HALF, ONE, None)?;
    chain(
        rt,
        "cutoff-infinity",
        ONE_AND_HALF,
        ONE,
        Some(f64::INFINITY),
    )?;
    chain(rt, "cutoff-nan", ONE_AND_HALF, ONE, Some(f64::NAN))?;
    chain(rt, "cutoff-other-nan", ONE_AND_HALF, ONE, Some(-f64::NAN))
}

// Bad costs, and costs of closed arcs.
fn bad_costs(rt: &impl Print) -> io::Result<()> {
    // A cost with its sign bit set is bad, and so is a NaN; bad is seen before the cutoff, but not past it.
    chain(rt, "cost-minus-zero", MINUS_ZERO, ONE, None)?;
    chain(rt, "cost-nan", NAN, ONE, None)?;
    chain(rt, "cost-minus-nan", MINUS_NAN, ONE, None)?;
    chain(rt, "bad-before-cutoff", MINUS_FIVE, ONE, Some(-1.0))?;
    chain(rt, "bad-past-cutoff", ONE_AND_HALF, NAN, Some(1.0))?;
    // Closed arcs are passed over, whatever they cost.
    closed(rt, "closed-nan", NAN, ONE)?;
    closed(rt, "closed-minus-five", MINUS_FIVE, ONE)
}

// Infinite costs, and sums that are rounded.
fn sums(rt: &impl Print) -> io::Result<()> {
    // +infinity is a cost and a distance; it doesn't take its own place, and a finite cutoff cuts it.
    chain(rt, "infinite", INFINITE, ONE, None)?;
    detour(rt, "infinite-stays", INFINITE, ONE, INFINITE)?;
    chain(rt, "infinite-cut", ONE, INFINITE, Some(2.5))?;
    // A sum past the largest f64, and one that is rounded to its first part: not smaller, so the first predecessor stays.
    chain(rt, "overflow", LARGEST, LARGEST, None)?;
    chain(rt, "rounded", TWO_TO_53, ONE, None)?;
    detour(rt, "rounded-stays", TWO_TO_53, ONE, TWO_TO_53)
}

fn main(rt: HostRuntime) -> io::Result<()> {
    cutoffs(&rt)?;
    bad_costs(&rt)?;
    sums(&rt)
}
