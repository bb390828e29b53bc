#![tactic(auto)]

ghost use Rattle.std.specs.Prelude.{true, ◌≡◌, ℕ, ◌≤◌, ◌<◌, length, get_or, take};
ghost use Rattle.numbers.specs.Refusal.{number_of, count_after};
ghost use Rattle.table.specs.Links.{present, present_both, lent_whole, all_inside, ends, table_no};
ghost use Rattle.table.specs.Links.{same_pair, joins_ends, Found, placing, link_of};
ghost use Rattle.table.specs.Lent.{room_ends, room_ints, room_floats, written, ints_now, put_ints, floats_now, raw_cost};
ghost use Rattle.table.specs.Lent.{put_floats};
ghost use Rattle.table.specs.Placed.{place_in};

use numbers::Refusal;

// The scalars of a lent map.
#[derive(Clone, Copy)]
pub struct Map {
    pub bound: usize,
    pub count: usize,
    pub directed: bool,
}

impl Map {
    // The most indices.
    pub const INDICES: usize = 1024;

    // The most links.
    pub const LINKS: usize = 8192;

    // A table with no links.
    pub fn empty(bound: usize, directed: bool) -> Map
        ensures { (result.bound ≡ bound) × (result.count ≡ 0) × (result.directed ≡ directed) }
    {
        Map {
            bound,
            count: 0,
            directed,
        }
    }
}

// The cost of an f64 link as engines see it: its 64-bit pattern, and whether it is open.
#[derive(Clone, Copy)]
pub struct FloatCost {
    pub bits: u64,
    pub opened: bool,
}

// Does the map have the index i, which may be any number?
#[tactic(auto, unfolding(crate::specs::Links::present))]
pub fn is_present(bound: usize, marks: &[u8], i: usize) -> bool
    requires { bound ≤ length marks.now }
    ensures { result ≡ present bound marks.now i }
{
    i < bound && marks[i] != 0
}

// The room that the slices of ends leave.
#[tactic(auto, unfolding(crate::specs::Lent::shorter))]
fn room_ends(from: &[u16], to: &[u16]) -> usize
    ensures { result ≡ room_ends from.now to.now }
{
    Map::LINKS.min(from.len()).min(to.len())
}

// The room of an integer map: its shortest table slice, at most the limit.
#[tactic(auto, unfolding(crate::specs::Lent::shorter, crate::specs::Lent::room_ints))]
pub fn room(from: &[u16], to: &[u16], costs: &[i32]) -> usize
    ensures { result ≡ room_ints from.now to.now costs.now }
{
    room_ends(from, to).min(costs.len())
}

// The room of an f64 map: its shortest table slice, at most the limit.
#[tactic(auto, unfolding(crate::specs::Lent::shorter, crate::specs::Lent::room_floats))]
pub fn room_f64(from: &[u16], to: &[u16], bits: &[u64], opens: &[u8]) -> usize
    ensures { result ≡ room_floats from.now to.now bits.now opens.now }
{
    room_ends(from, to).min(bits.len()).min(opens.len())
}

// Are the limits kept, the marks long enough, and the count within the room?
#[tactic(auto, unfolding(crate::specs::Links::lent_whole))]
pub fn lent_whole(m: usize, n: usize, room: usize, marks: &[u8]) -> bool
    ensures { result ≡ lent_whole m n room marks.now }
{
    m <= Map::INDICES && m <= marks.len() && n <= room
}

// Are the first n numbers all below the top? Every number is looked at,
// so that no branch has to be guessed and many are compared at a time.
fn all_below(top: u16, n: usize, xs: &[u16]) -> bool
    requires { n ≤ length xs.now }
    ensures { result ≡ true → (k : ℕ) → k < n → get_or xs.now k 0 < top }
{
    let mut good = true;
    for x in &xs[..n] {
        good &= *x < top;
    }
    good
}

// Is every index below m present?
fn all_marked(m: usize, marks: &[u8]) -> bool
    requires { m ≤ length marks.now }
    ensures { result ≡ true → (k : ℕ) → k < m → get_or marks.now k 0 ≡ 0 → ⊥ }
{
    let mut good = true;
    for mark in &marks[..m] {
        good &= *mark != 0;
    }
    good
}

// Is every index present, and every end below m? What most maps are, and quick to see.
fn plainly_inside(m: usize, n: usize, marks: &[u8], from: &[u16], to: &[u16]) -> bool
    requires { (m ≤ length marks.now) × (n ≤ length from.now) × (n ≤ length to.now) }
    ensures { result ≡ true → all_inside m marks.now (take n (ends from.now to.now)) ≡ true }
{
    if Map::INDICES < m {
        return false;
    }
    let top = m as u16;
    all_marked(m, marks) && all_below(top, n, from) && all_below(top, n, to)
}

// Does each of the first n links name indices that the map has? Link by link.
fn each_inside(m: usize, n: usize, marks: &[u8], from: &[u16], to: &[u16]) -> bool
    requires { (m ≤ length marks.now) × (n ≤ length from.now) × (n ≤ length to.now) }
    ensures { result ≡ all_inside m marks.now (take n (ends from.now to.now)) }
{
    for i in 0..n {
        if !ends_present(m, marks, from[i], to[i]) {
            return false;
        }
    }
    true
}

// Does each of the first n links name indices that the map has?
pub fn all_inside(m: usize, n: usize, marks: &[u8], from: &[u16], to: &[u16]) -> bool
    requires { (m ≤ length marks.now) × (n ≤ length from.now) × (n ≤ length to.now) }
    ensures { result ≡ all_inside m marks.now (take n (ends from.now to.now)) }
{
    plainly_inside(m, n, marks, from, to) || each_inside(m, n, marks, from, to)
}

// Limit where a limit is passed or a slice is too short, Index where a link names an index that the map has not:
// for either kind of map, by its room.
pub fn check_ends(
    map: Map,
    room: usize,
    marks: &[u8],
    from: &[u16],
    to: &[u16],
) -> Result<(), Refusal>
    requires { (room ≤ length from.now) × (room ≤ length to.now) }
    ensures { number_of result ≡ table_no map.bound map.count room marks.now (ends from.now to.now) }
{
    if !lent_whole(map.bound, map.count, room, marks) {
        return Err(Refusal::Limit);
    }
    if !all_inside(map.bound, map.count, marks, from, to) {
        return Err(Refusal::Index);
    }
    Ok(())
}

// Is x, y the pair u, v?
#[tactic(auto, unfolding(crate::specs::Links::same_pair))]
fn same_pair(u: u16, v: u16, x: u16, y: u16) -> bool
    ensures { result ≡ same_pair u v x y }
{
    x == u && y == v
}

// Is x, y the link u, v?
#[tactic(auto, unfolding(crate::specs::Links::joins_ends))]
pub fn same_link(directed: bool, u: u16, v: u16, x: u16, y: u16) -> bool
    ensures { result ≡ joins_ends directed u v x y }
{
    same_pair(u, v, x, y) || !directed && same_pair(v, u, x, y)
}

// The first place of the link u, v, where the table has it.
pub fn find_link(
    directed: bool,
    n: usize,
    from: &[u16],
    to: &[u16],
    u: u16,
    v: u16,
) -> Option<usize>
    requires { (n ≤ length from.now) × (n ≤ length to.now) }
    ensures { Found directed u v n from.now to.now result }
{
    for k in 0..n {
        if same_link(directed, u, v, from[k], to[k]) {
            return Some(k);
        }
    }
    None
}

// Are both ends indices that the map has?
#[tactic(auto, unfolding(crate::specs::Links::present_both))]
fn ends_present(bound: usize, marks: &[u8], a: u16, b: u16) -> bool
    requires { bound ≤ length marks.now }
    ensures { result ≡ present_both bound marks.now a b }
{
    is_present(bound, marks, usize::from(a)) && is_present(bound, marks, usize::from(b))
}

// Where a record goes: the count after it, the place, and whether the link is new.
#[derive(Clone, Copy)]
pub struct Place {
    pub count: usize,
    pub slot: usize,
    pub fresh: bool,
}

// Where the record a, b goes, whatever its cost: refusals 1, 2 and 8, else the place of its link or the one at the end.
pub fn find_place(
    map: Map,
    room: usize,
    marks: &[u8],
    from: &[u16],
    to: &[u16],
    a: u16,
    b: u16,
) -> Result<Place, Refusal>
    requires { (room ≤ length from.now) × (room ≤ length to.now) }
    ensures { place_in map.count result
        ≡ placing map.directed map.bound room marks.now a b map.count (ends from.now to.now) }
{
    check_ends(map, room, marks, from, to)?;
    if !ends_present(map.bound, marks, a, b) {
        return Err(Refusal::Index);
    }
    let count = map.count;
    if let Some(slot) = find_link(map.directed, count, from, to, a, b) {
        return Ok(Place {
            count,
            slot,
            fresh: false,
        });
    }
    if room <= count {
        return Err(Refusal::Room);
    }
    Ok(Place {
        count: count + 1,
        slot: count,
        fresh: true,
    })
}

// The ends of a new link, written at its place.
fn put_ends(place: Place, from: &mut [u16], to: &mut [u16], a: u16, b: u16)
    requires { (place.slot < length from.old) × (place.slot < length to.old) }
    ensures { (from.new ≡ written place.fresh place.slot a from.old) × (to.new ≡ written place.fresh place.slot b to.old) }
{
    if place.fresh {
        from[place.slot] = a;
        to[place.slot] = b;
    }
}

// Put a record into an integer map: its link's cost is replaced, or the link goes at the end. Gives the count then.
pub fn put(
    map: Map,
    marks: &[u8],
    from: &mut [u16],
    to: &mut [u16],
    costs: &mut [i32],
    a: u16,
    b: u16,
    cost: i32,
) -> Result<usize, Refusal>
    ensures { ints_now (number_of result) (count_after map.count result) from.new to.new costs.new
        ≡ put_ints map.directed map.bound marks.now (link_of a b cost) map.count from.old to.old
        costs.old }
{
    let most = room(from, to, costs);
    let place = find_place(map, most, marks, from, to, a, b)?;
    costs[place.slot] = cost;
    put_ends(place, from, to, a, b);
    Ok(place.count)
}

// Put a record into an f64 map: its link's pattern and open mark are replaced, or the link goes at the end. Gives the count then.
pub fn put_f64(
    map: Map,
    marks: &[u8],
    from: &mut [u16],
    to: &mut [u16],
    bits: &mut [u64],
    opens: &mut [u8],
    a: u16,
    b: u16,
    pattern: u64,
    opened: u8,
) -> Result<usize, Refusal>
    ensures { floats_now (number_of result) (count_after map.count result) from.new to.new bits.new opens.new
        ≡ put_floats map.directed map.bound marks.now (link_of a b (raw_cost pattern opened)) map.count from.old
        to.old bits.old opens.old }
{
    let most = room_f64(from, to, bits, opens);
    let place = find_place(map, most, marks, from, to, a, b)?;
    bits[place.slot] = pattern;
    opens[place.slot] = opened;
    put_ends(place, from, to, a, b);
    Ok(place.count)
}
