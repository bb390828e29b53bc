// The questions of f64 maps on a case of the list, with room for 8 indices and 16 links: no case has more.
use crate::maps;
use crate::reads::Line;
use net::{Floats, Lent};
use numbers::Refusal;
use rows::Lists;
use search::Memory;
use table::Map;

const MINUS_ZERO: u64 = 0x8000_0000_0000_0000;

const MINUS_ONE: u64 = 0xbff0_0000_0000_0000;

const NAN: u64 = 0x7ff8_0000_0000_0000;

// The map of a case. It has its own `read`: other words are read, into other slices.
#[derive(Drop)]
pub struct Case {
    map: Map,
    marks: [u8; 8],
    from: [u16; 16],
    to: [u16; 16],
    bits: [u64; 16],
    opens: [u8; 16],
}

// A cutoff by its bits. Past those of +infinity the list has -0.0, -1.0 and one NaN.
fn cutoff_of(bits: u64) -> Option<f64> {
    match bits {
        MINUS_ZERO => Some(-0.0),
        MINUS_ONE => Some(-1.0),
        NAN => Some(f64::NAN),
        _ if float::bad_cost(bits) => None,
        _ => Some(f64::from_bits(bits)),
    }
}

impl Case {
    // Reads the map and puts its records.
    pub fn read(line: &mut Line<'_>) -> Option<Case> {
        let mut marks = [0; 8];
        let mut from = [0; 16];
        let mut to = [0; 16];
        let mut bits = [0; 16];
        let mut opens = [0; 16];
        let mut map = maps::read_head(line, &mut marks)?;
        for _ in 0..line.whole(maps::RECORDS)? {
            let a = line.end()?;
            let b = line.end()?;
            let cost = line.bits()?;
            let open = line.whole(255)? as u8;
            map.count = table::put_f64(
                map, &marks, &mut from, &mut to, &mut bits, &mut opens, a, b, cost, open,
            )
            .ok()?;
        }
        Some(Case {
            map,
            marks,
            from,
            to,
            bits,
            opens,
        })
    }

    // The map, lent.
    fn net(&self) -> Lent<'_, Floats<'_>> {
        Lent {
            map: self.map,
            marks: &self.marks,
            from: &self.from,
            to: &self.to,
            costs: Floats {
                bits: &self.bits,
                opens: &self.opens,
            },
        }
    }

    // A search: source, 0 and 0 without a cutoff or 1 and its bits; number, and after 0 the distances and the predecessors.
    pub fn path<
        F: Fn(
            Lent<'_, Floats<'_>>,
            usize,
            Option<f64>,
            &mut Lists<'_, u64>,
            &mut Memory<'_, u64>,
        ) -> Result<(), Refusal>,
    >(&self, line: &mut Line<'_>, search: F) -> Option<bool>
        requires { F.IsAlwaysCallable search }
    {
        let source = line.index()?;
        let cutoff = if line.flag()? {
            Some(cutoff_of(line.bits()?)?)
        } else {
            line.whole(0)?;
            None
        };
        // `ints::with_memory` serves i64 alone: over a type parameter the borrow checker does not cover it.
        let mut lists = Lists {
            offsets: &mut [0; 9],
            heads: &mut [0; 32],
            weights: &mut [0; 32],
        };
        let mut memory = Memory {
            dist: &mut [0; 8],
            preds: &mut [0; 8],
            peaks: &mut [0; 8],
            words: &mut [0; 8],
            keys: &mut [0; 8],
        };
        let done = search(self.net(), source, cutoff, &mut lists, &mut memory);
        match line.number()? {
            0 => {
                let dist = line.same(memory.dist, self.map.bound)?;
                let preds = line.same(memory.preds, self.map.bound)?;
                Some(done.is_ok() && dist && preds)
            }
            refusal => Some(numbers::number(done) == refusal),
        }
    }

    // hops_f64.
    pub fn hops(&self, line: &mut Line<'_>) -> Option<bool> {
        maps::replay_hops(self.net(), line)
    }
}
