// The sheet: from the bytes of a map file to the bytes that the program writes.
#![tactic(auto)]

ghost use Rattle.std.specs.Prelude.{◌≡◌, ℕ, ◌+◌, ◌≤◌, length};
ghost use Rattle.mapfile.specs.Load.{state_of};
ghost use Rattle.answers.specs.Output.{Fits, most};
ghost use Rattle.answers.specs.Answers.{Written};
ghost use Rattle.sheet.specs.Sheet.{Answer, Sound, Sheet};

use mapfile::{Engine, Question, Reading, Stage};
use net::{Floats, Ints, Lent};
use table::Map;

// The most bytes of a map file.
pub const LIMIT: usize = 16384;

// The bytes of the output: more than 64 rows of 64 entries need.
pub const OUTPUT: usize = 98304;

// Puts the answer of the engine that is asked.
fn answer(
    w: Reading,
    asked: Question,
    marks: &[u8],
    from: &[u16],
    to: &[u16],
    costs: &[i32],
    bits: &[u64],
    opens: &[u8],
    out: &mut [u8],
    at: usize,
) -> usize
    requires { Fits w.bound marks.now out.old at }
    ensures written { Written
        (Answer
        (state_of w marks.now from.now to.now costs.now bits.now opens.now)
        asked.engine asked.source asked.target) out.old at out.new result }
    ensures upper_bound { result ≤ at + most }
{
    let map = Map {
        bound: w.bound,
        count: w.count,
        directed: w.directed,
    };
    let ints = Lent {
        map,
        marks,
        from,
        to,
        costs: Ints { costs },
    };
    let floats = Lent {
        map,
        marks,
        from,
        to,
        costs: Floats { bits, opens },
    };
    let source = usize::from(asked.source);
    let target = usize::from(asked.target);
    match asked.engine {
        Engine::Dijkstra => answers::answer_dijkstra(ints, source, out, at),
        Engine::BellmanFord => answers::answer_bellman_ford(ints, source, out, at),
        Engine::AStar => answers::answer_a_star(ints, source, target, out, at),
        Engine::FloydWarshall => answers::answer_floyd_warshall(ints, out, at),
        Engine::Johnson => answers::answer_johnson(ints, out, at),
        Engine::Hops if w.float => answers::answer_hops(floats, out, at),
        Engine::Hops => answers::answer_hops(ints, out, at),
        Engine::DijkstraPath => answers::answer_dijkstra_path(floats, source, out, at),
    }
}

// Puts the sheet of a file that ends in its ask.
fn print_sound(
    w: Reading,
    asked: Question,
    marks: &[u8],
    from: &[u16],
    to: &[u16],
    costs: &[i32],
    bits: &[u64],
    opens: &[u8],
    out: &mut [u8],
) -> usize
    requires { (w.bound ≤ 64) × (w.bound ≤ length marks.now) × (98304 ≤ length out.old) }
    ensures written { Written
        (Sound
        (state_of w marks.now from.now to.now costs.now bits.now
        opens.now) asked) out.old 0 out.new result }
    ensures upper_bound { result ≤ 98304 }
{
    let first = text::print_engine(out, 0, u8::from(asked.engine));
    let next = answer(w, asked, marks, from, to, costs, bits, opens, out, first);
    text::print_end(out, next)
}

// The sheet of a map file: puts its text at the front of the output, and gives the number of bytes. The promise is in specs/Sheet.antt.
pub fn sheet(file: &[u8], out: &mut [u8; OUTPUT]) -> usize
    ensures written { Written (Sheet file.now) out.old 0 out.new result }
    ensures upper_bound { result ≤ length out.new }
{
    let mut marks = [0; 64];
    let mut from = [0; 512];
    let mut to = [0; 512];
    let mut costs = [0; 512];
    let mut bits = [0; 512];
    let mut opens = [0; 512];
    let w = mapfile::load(
        LIMIT, file, &mut marks, &mut from, &mut to, &mut costs, &mut bits, &mut opens,
    );
    match w.stage {
        Stage::Asked(asked) => print_sound(
            w, asked, &marks, &from, &to, &costs, &bits, &opens, out,
        ),
        _ => text::print_bad(out, 0, w.at),
    }
}
