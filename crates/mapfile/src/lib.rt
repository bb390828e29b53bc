// The records of a map file: what stands at an offset, and the reading that loads a map and its ask.
#![tactic(auto)]

ghost use Rattle.std.specs.Prelude.{◌≡◌, ℕ, ◌+◌, ◌≤◌, ◌<◌, ◌^◌, length, take, drop};
ghost use Rattle.mapfile.specs.Bytes.{u16_at, u32_at, u64_at, cost_of};
ghost use Rattle.mapfile.specs.Records.{record_at, kind_at, head_at, float_link_at};
ghost use Rattle.mapfile.specs.Engines.{engine_of, number_of, has_engine};
ghost use Rattle.mapfile.specs.Load.{start_reading, broken_at, onward as onwardOf, state_of, head_step, absent_step};
ghost use Rattle.mapfile.specs.Load.{goes_on, link_may, link_step, float_step, ask_step, one_step, loaded};
ghost use Rattle.mapfile.specs.Parts.{OnMarks, OnInts, OnFloats};

use table::Map;

// What stands at an offset of a map file.
#[derive(Clone, Copy)]
pub enum Record {
    // the file's end
    End,
    // no whole record, a kind that is none, a length that is not its kind's, or a flag above 1
    Broken,
    Head {
        bound: u16,
        directed: bool,
        float: bool,
    },
    Absent(u16),
    Link {
        a: u16,
        b: u16,
        cost: i32,
    },
    // the open mark stays a byte, as the lent list of marks has it
    FloatLink {
        a: u16,
        b: u16,
        bits: u64,
        open: u8,
    },
    // the engine stays a byte: a file may have any
    Ask {
        engine: u8,
        source: u16,
        target: u16,
    },
}

// The N bytes at k.
fn bytes_at<const N: usize>(file: &[u8], k: usize) -> [u8; N]
    requires { k + N ≤ length file.now }
    ensures { result ≡ take N (drop k file.now) }
{
    let mut bytes = [0; N];
    bytes.copy_from_slice(&file[k..k + N]);
    bytes
}

// The 16-bit number at k, low byte first.
#[tactic(auto, using(crate::proofs::Bytes::u16_le))]
fn u16_at(file: &[u8], k: usize) -> u16
    requires { k + 2 ≤ length file.now }
    ensures { result ≡ u16_at file.now k }
{
    u16::from_le_bytes(bytes_at(file, k))
}

// The head whose body stands at k.
#[tactic(auto, unfolding(crate::specs::Records::head_at))]
fn head_at(file: &[u8], k: usize) -> Record
    requires { k + 4 ≤ length file.now }
    ensures { result ≡ head_at file.now k }
{
    match (file[k + 2], file[k + 3]) {
        (directed @ 0..=1, float @ 0..=1) => Record::Head {
            bound: u16_at(file, k),
            directed: directed == 1,
            float: float == 1,
        },
        _ => Record::Broken,
    }
}

// The f64 link whose record's body stands at k.
#[tactic(auto, using(crate::proofs::Bytes::u64_le), unfolding(crate::specs::Records::float_link_at))]
fn float_link_at(file: &[u8], k: usize) -> Record
    requires { k + 13 ≤ length file.now }
    ensures { result ≡ float_link_at file.now k }
{
    match file[k + 12] {
        open @ 0..=1 => Record::FloatLink {
            a: u16_at(file, k),
            b: u16_at(file, k + 2),
            bits: u64::from_le_bytes(bytes_at(file, k + 4)),
            open,
        },
        _ => Record::Broken,
    }
}

// The record of a kind and of length n (kind and body), whose body stands at k.
#[tactic(auto, using(crate::proofs::Bytes::costs), unfolding(crate::specs::Records::kind_at))]
fn kind_at(file: &[u8], kind: u16, n: u16, k: usize) -> Record
    requires { k + n ≤ length file.now + 2 }
    ensures { result ≡ kind_at file.now n kind k }
{
    match (kind, n) {
        (1, 6) => head_at(file, k),
        (2, 4) => Record::Absent(u16_at(file, k)),
        (3, 10) => Record::Link {
            a: u16_at(file, k),
            b: u16_at(file, k + 2),
            cost: i32::from_le_bytes(bytes_at(file, k + 4)),
        },
        (4, 15) => float_link_at(file, k),
        (5, 7) => Record::Ask {
            engine: file[k],
            source: u16_at(file, k + 1),
            target: u16_at(file, k + 3),
        },
        _ => Record::Broken,
    }
}

// The work of the reader: what stands at an offset of a map file.
#[tactic(auto, unfolding(crate::specs::Records::record_at))]
pub fn record_at(file: &[u8], at: usize) -> Record
    ensures { result ≡ record_at file.now at }
{
    if file.len() <= at {
        Record::End
    } else if file.len() - at < 4 {
        Record::Broken
    } else {
        let n = u16_at(file, at);
        if file.len() - at - 2 < usize::from(n) {
            Record::Broken
        } else {
            kind_at(file, u16_at(file, at + 2), n, at + 4)
        }
    }
}

// A view of a map file: its bytes and an offset.
#[derive(Clone, Copy)]
pub struct Reader<'a> {
    pub file: &'a [u8],
    pub at: usize,
}

// The view of a file at an offset.
pub fn view_at<'a>(file: &'a [u8], at: usize) -> Reader<'a>
    ensures { (result.file ≡ file.entry) × (result.at ≡ at) }
{
    Reader { file, at }
}

// What stands where the view is.
pub fn next<'a>(r: Reader<'a>) -> Record
    ensures { result ≡ record_at r.entry.file.now r.entry.at }
{
    record_at(r.file, r.at)
}

// What stands at an offset, by a view.
pub fn read_at(file: &[u8], at: usize) -> Record
    ensures { result ≡ record_at file.now at }
{
    next(view_at(file, at))
}

// An engine, by its number in an ask.
#[derive(Clone, Copy)]
pub enum Engine {
    Dijkstra = 1,
    BellmanFord = 2,
    AStar = 3,
    FloydWarshall = 4,
    Johnson = 5,
    Hops = 6,
    DijkstraPath = 7,
}

impl TryFrom<u8> for Engine {
    // the number that is no engine's
    type Error = u8;

    ghost try_from_gives = { λ number r. r ≡ engine_of number };

    #[tactic(auto, unfolding(crate::specs::Engines::engine_of))]
    fn try_from(number: u8) -> Result<Engine, u8> {
        match number {
            1 => Ok(Engine::Dijkstra),
            2 => Ok(Engine::BellmanFord),
            3 => Ok(Engine::AStar),
            4 => Ok(Engine::FloydWarshall),
            5 => Ok(Engine::Johnson),
            6 => Ok(Engine::Hops),
            7 => Ok(Engine::DijkstraPath),
            _ => Err(number),
        }
    }
}

impl From<Engine> for u8 {
    ghost from_gives = { λ engine number. number ≡ number_of engine };

    fn from(engine: Engine) -> u8 {
        engine as u8
    }
}

// Does the map's kind have the engine?
fn has_engine(engine: Engine, float: bool) -> bool
    ensures { result ≡ has_engine engine float }
{
    match engine {
        Engine::Hops => true,
        Engine::DijkstraPath => float,
        _ => !float,
    }
}

// What is asked: of an engine, from where and to where.
#[derive(Clone, Copy)]
pub struct Question {
    pub engine: Engine,
    pub source: u16,
    pub target: u16,
}

// How far a reading is.
#[derive(Clone, Copy)]
pub enum Stage {
    // before the first record
    Start,
    // after the head
    Headed,
    // after a link
    Linked,
    // a rule is broken
    Bad,
    // after the ask
    Asked(Question),
}

// The reading of a map file: its stage, the offset of the record at hand or of the one that breaks a rule, and the map's scalars so far.
#[derive(Clone, Copy)]
pub struct Reading {
    pub stage: Stage,
    pub at: usize,
    pub bound: usize,
    pub count: usize,
    pub directed: bool,
    pub float: bool,
}

impl Reading {
    // A reading before the first record.
    fn start() -> Reading
        ensures { result ≡ start_reading }
    {
        Reading {
            stage: Stage::Start,
            at: 0,
            bound: 0,
            count: 0,
            directed: false,
            float: false,
        }
    }

    // The reading, with a rule broken at an offset.
    fn broken_at(self, at: usize) -> Reading
        ensures { result ≡ broken_at at self }
    {
        Reading {
            stage: Stage::Bad,
            at,
            ..self
        }
    }

    // The reading, with a rule broken by the record at hand.
    fn broken(self) -> Reading
        ensures { result ≡ broken_at self.at self }
    {
        self.broken_at(self.at)
    }

    // The reading past a record of n bytes, at a stage and with a count of links.
    fn onward(self, stage: Stage, n: usize, count: usize) -> Reading
        requires { self.at + n < 2 ^ 64 }
        ensures { result ≡ onwardOf stage n count self }
    {
        Reading {
            stage,
            at: self.at + n,
            count,
            ..self
        }
    }

    // Does the reading go on?
    fn goes_on(self) -> bool
        ensures { result ≡ goes_on self.stage }
    {
        matches!(self.stage, Stage::Start | Stage::Headed | Stage::Linked)
    }

    // May a link of a kind stand here?
    #[tactic(auto, unfolding(crate::specs::Load::link_may))]
    fn link_may(self, float: bool) -> bool
        ensures { result ≡ link_may float self }
    {
        !matches!(self.stage, Stage::Start) && self.float == float
    }

    // The map so far.
    fn map(self) -> Map
        ensures { (result.bound ≡ self.bound) × (result.count ≡ self.count) × (result.directed ≡ self.directed) }
    {
        Map {
            bound: self.bound,
            count: self.count,
            directed: self.directed,
        }
    }
}

// A head: the first record, with no more indices than there are marks. Every index below m is then present.
#[tactic(auto, unfolding(crate::specs::Load::head_step))]
fn take_head(w: Reading, m: u16, directed: bool, float: bool, marks: &mut [u8]) -> Reading
    requires { w.at + 8 < 2 ^ 64 }
    ensures { OnMarks (head_step m directed float) w marks.old result marks.new }
{
    let bound = usize::from(m);
    match w.stage {
        Stage::Start if bound <= marks.len() => {
            clean::fill(marks, bound, 1);
            Reading {
                stage: Stage::Headed,
                at: w.at + 8,
                bound,
                count: 0,
                directed,
                float,
            }
        }
        _ => w.broken(),
    }
}

// An absent index: after the head and before the links, below m.
#[tactic(auto, unfolding(crate::specs::Load::absent_step))]
fn take_absent(w: Reading, i: u16, marks: &mut [u8]) -> Reading
    requires bound_in_bounds { w.bound ≤ length marks.old }
    requires at_bound { w.at + 6 < 2 ^ 64 }
    ensures { OnMarks (absent_step i) w marks.old result marks.new }
{
    let i = usize::from(i);
    match w.stage {
        Stage::Headed if i < w.bound => {
            marks[i] = 0;
            w.onward(Stage::Headed, 6, w.count)
        }
        _ => w.broken(),
    }
}

// An integer link: put into the table.
#[tactic(auto, unfolding(crate::specs::Load::link_step, crate::specs::Load::after_put))]
fn take_link(
    w: Reading,
    a: u16,
    b: u16,
    cost: i32,
    marks: &[u8],
    from: &mut [u16],
    to: &mut [u16],
    costs: &mut [i32],
) -> Reading
    requires { w.at + 12 < 2 ^ 64 }
    ensures { OnInts (link_step a b cost) marks.now w from.old to.old costs.old result
        from.new to.new costs.new }
{
    if !w.link_may(false) {
        return w.broken();
    }
    match table::put(w.map(), marks, from, to, costs, a, b, cost) {
        Ok(count) => w.onward(Stage::Linked, 12, count),
        Err(_) => w.broken(),
    }
}

// An f64 link: put into the table. No one function with `take_link`: the records and the lent tables of the two kinds differ in number.
#[tactic(auto, unfolding(crate::specs::Load::float_step, crate::specs::Load::after_put))]
fn take_float(
    w: Reading,
    a: u16,
    b: u16,
    pattern: u64,
    opened: u8,
    marks: &[u8],
    from: &mut [u16],
    to: &mut [u16],
    bits: &mut [u64],
    opens: &mut [u8],
) -> Reading
    requires { w.at + 17 < 2 ^ 64 }
    ensures { OnFloats (float_step a b pattern opened) marks.now w from.old to.old
        bits.old opens.old result from.new to.new bits.new opens.new }
{
    if !w.link_may(true) {
        return w.broken();
    }
    match table::put_f64(w.map(), marks, from, to, bits, opens, a, b, pattern, opened) {
        Ok(count) => w.onward(Stage::Linked, 17, count),
        Err(_) => w.broken(),
    }
}

// An ask: after the head, an engine that the map's kind has, and nothing after it.
#[tactic(auto, unfolding(crate::specs::Load::ask_step))]
fn take_ask(w: Reading, engine: u8, source: u16, target: u16, len: usize) -> Reading
    requires { w.at + 9 < 2 ^ 64 }
    ensures { result ≡ ask_step len engine source target w }
{
    if matches!(w.stage, Stage::Start) {
        return w.broken();
    }
    match Engine::try_from(engine) {
        Ok(engine) if has_engine(engine, w.float) => {
            if w.at + 9 < len {
                w.broken_at(w.at + 9)
            } else {
                Reading {
                    stage: Stage::Asked(Question {
                        engine,
                        source,
                        target,
                    }),
                    ..w
                }
            }
        }
        _ => w.broken(),
    }
}

// One record of the file.
#[tactic(auto, unfolding(crate::specs::Load::one_step))]
fn step(
    file: &[u8],
    w: Reading,
    marks: &mut [u8],
    from: &mut [u16],
    to: &mut [u16],
    costs: &mut [i32],
    bits: &mut [u64],
    opens: &mut [u8],
) -> Reading
    requires { (w.at ≤ length file.now) × (w.bound ≤ length marks.old) }
    ensures { state_of result marks.new from.new to.new costs.new bits.new
        opens.new
        ≡ one_step file.now
        (state_of w marks.old from.old to.old costs.old bits.old
        opens.old) }
{
    match read_at(file, w.at) {
        Record::End | Record::Broken => w.broken(),
        Record::Head {
            bound,
            directed,
            float,
        } => take_head(w, bound, directed, float, marks),
        Record::Absent(i) => take_absent(w, i, marks),
        Record::Link { a, b, cost } => take_link(w, a, b, cost, marks, from, to, costs),
        Record::FloatLink {
            a,
            b,
            bits: pattern,
            open,
        } => take_float(w, a, b, pattern, open, marks, from, to, bits, opens),
        Record::Ask {
            engine,
            source,
            target,
        } => take_ask(w, engine, source, target, file.len()),
    }
}

// Loads a map file of at most `limit` bytes into lent tables: the reading ends asked, or bad with a rule broken at `at`.
// A map may have as many indices as there are marks, and as many links as the tables have room for.
pub fn load(
    limit: usize,
    file: &[u8],
    marks: &mut [u8],
    from: &mut [u16],
    to: &mut [u16],
    costs: &mut [i32],
    bits: &mut [u64],
    opens: &mut [u8],
) -> Reading
    ensures { state_of result marks.new from.new to.new costs.new bits.new
        opens.new
        ≡ loaded limit file.now marks.old from.old to.old costs.old
        bits.old opens.old }
{
    let mut w = Reading::start();
    if limit < file.len() {
        return w.broken_at(limit);
    }
    // a `while`: each record says how long it is, so that no index counts them
    while w.goes_on() {
        w = step(file, w, marks, from, to, costs, bits, opens);
    }
    w
}
