// What every engine asks of a lent map before it starts.
#![tactic(auto)]

ghost use Rattle.std.specs.Prelude.{true, ◌++◌, ◌≡◌, List, ℕ, ◌≤◌, length, drop};
ghost use Rattle.table.specs.Links.{present};
ghost use Rattle.table.specs.Lent.{room_ints, room_floats, float_costs};
ghost use Rattle.table.proofs.Laws.{Room, room_ints_lem, room_floats_lem};
ghost use Rattle.net.specs.Net.{net_in, whole_net, inside_net, rising, most_arcs};
ghost use Rattle.net.specs.Ranks.{Ranks};

use table::{FloatCost, Map};

// p: how many indices the map has.
pub fn count_present(bound: usize, marks: &[u8]) -> usize
    requires { bound ≤ length marks.now }
    ensures { result ≡ length (rising (present bound marks.now) bound) }
{
    let mut p = 0;
    for i in 0..bound {
        if marks[i] != 0 {
            p += 1;
        }
    }
    p
}

// For each index below bound, how many below it the map has: the place of a present one among the nodes.
pub fn set_ranks(bound: usize, marks: &[u8], ranks: &mut [usize])
    requires { (bound ≤ length marks.now) × (bound ≤ length ranks.old) }
    ensures { Ranks (present bound marks.now) bound ranks.old ranks.new }
{
    let mut p = 0;
    for i in 0..bound {
        ranks[i] = p;
        if marks[i] != 0 {
            p += 1;
        }
    }
}

// Write the indices that the map has in rising order, and return their number.
pub fn list_nodes(bound: usize, marks: &[u8], nodes: &mut [u32]) -> usize
    requires { (bound ≤ 1024) × (bound ≤ length marks.now)
        × (length (rising (present bound marks.now) bound) ≤ length nodes.old) }
    ensures { (result ≡ length (rising (present bound marks.now) bound))
        × (nodes.new ≡ rising (present bound marks.now) bound
        ++ drop (length (rising (present bound marks.now) bound)) nodes.old) }
{
    let mut p = 0;
    for i in 0..bound {
        if marks[i] != 0 {
            nodes[p] = i as u32;
            p += 1;
        }
    }
    p
}

// The costs of a lent map's links, of one kind.
pub trait Costs: Copy {
    // What a link costs.
    type Cost;

    // The cost of each link, by its place.
    ghost listed: { Self → List Self.Cost };

    // The room that these slices and those of the ends leave.
    ghost room: { List ℕ → List ℕ → Self → ℕ };

    fn room(&self, from: &[u16], to: &[u16]) -> usize
        ensures { result ≡ room from.now to.now self.now };

    // So many links have their place in each slice.
    ghost fits: { (xs ys : List ℕ) (c : Self) → Room (room xs ys c) xs ys (length (listed c)) };
}

// The costs of an integer map.
#[derive(Clone, Copy)]
pub struct Ints<'a> {
    pub costs: &'a [i32],
}

impl<'a> Costs for Ints<'a> {
    type Cost = i32;

    ghost listed = { λ c. c.costs.now };

    ghost room = { λ xs ys c. room_ints xs ys c.costs.now };

    ghost fits = { λ xs ys c. room_ints_lem xs ys c.costs.now };

    fn room(&self, from: &[u16], to: &[u16]) -> usize {
        table::room(from, to, self.costs)
    }
}

// The costs of an f64 map: patterns, and open marks.
#[derive(Clone, Copy)]
pub struct Floats<'a> {
    pub bits: &'a [u64],
    pub opens: &'a [u8],
}

impl<'a> Costs for Floats<'a> {
    type Cost = FloatCost;

    ghost listed = { λ c. float_costs c.bits.now c.opens.now };

    ghost room = { λ xs ys c. room_floats xs ys c.bits.now c.opens.now };

    ghost fits = { λ xs ys c. room_floats_lem xs ys c.bits.now c.opens.now };

    fn room(&self, from: &[u16], to: &[u16]) -> usize {
        table::room_f64(from, to, self.bits, self.opens)
    }
}

// A lent map: its scalars, the marks of its indices, the ends and the costs of its links.
#[derive(Clone, Copy)]
pub struct Lent<'a, C> {
    pub map: Map,
    pub marks: &'a [u8],
    pub from: &'a [u16],
    pub to: &'a [u16],
    pub costs: C,
}

impl<'a, C: Costs> Lent<'a, C> {
    // Does it keep the limits, with slices that are long enough?
    pub fn whole(&self) -> bool
        ensures { result ≡ whole_net (net_in C.listed C.room self.now) }
    {
        let room = self.costs.room(self.from, self.to);
        table::lent_whole(self.map.bound, self.map.count, room, self.marks)
    }

    // Does each link name indices that the map has?
    pub fn inside(&self) -> bool
        requires { whole_net (net_in C.listed C.room self.now) ≡ true }
        ensures { result ≡ inside_net (net_in C.listed C.room self.now) }
    {
        table::all_inside(
            self.map.bound,
            self.map.count,
            self.marks,
            self.from,
            self.to,
        )
    }

    // a: the room that its arcs may take.
    #[tactic(auto, unfolding(crate::specs::Net::most_arcs))]
    pub fn most_arcs(&self) -> usize
        requires { self.now.map.count ≤ 8192 }
        ensures { result ≡ most_arcs self.now.map.directed self.now.map.count }
    {
        let count = self.map.count;
        if self.map.directed {
            count
        } else {
            count + count
        }
    }

    // Does it have the index i, which may be any number?
    #[tactic(auto, unfolding(table::specs::Links::present))]
    pub fn has(&self, i: usize) -> bool
        requires { self.now.map.bound ≤ length self.now.marks.now }
        ensures { result ≡ present self.now.map.bound self.now.marks.now i }
    {
        table::is_present(self.map.bound, self.marks, i)
    }
}
