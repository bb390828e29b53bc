// Replays a list of the original's answers (standard input; how it is written and was made: LIST.md) and tries the limits of a map.
// A line for each question: how many cases, and how many of them differ;
// before these a line for each line of the list that differs or is no case.
// Then a line for each limit, with the number given.
#![tactic(auto)]

ghost use Rattle.std.specs.Prelude.{IfOk};
ghost use Rattle.std.specs.Counts.{IsPrefixLen};

mod floats;
mod ints;
mod limits;
mod maps;
mod questions;
mod reads;

use questions::Question;
use reads::Line;
use std::io::{Read, Stdin};
use std::{fmt, io};

// The most bytes of a list, and so of its lines.
const ROOM: usize = 524288;

// Why a line of the list is no case.
#[derive(Clone, Copy)]
enum Fault {
    Question,
    Word,
    Newline,
}

impl fmt::Display for Fault {
    fn fmt<W: fmt::Write>(&self, f: &mut fmt::Formatter<W>) -> fmt::Result {
        f.write_str(match self {
            Fault::Question => "no question from 1 to 9",
            Fault::Word => "a word is missing or is not what may stand there",
            Fault::Newline => "no newline behind its last word",
        })
    }
}

// How many cases of a question there are, and how many of them differ.
#[derive(Clone, Copy, Default)]
struct Tally {
    cases: u64,
    differ: u64,
}

// The case of this line: its question, and is the answer the original's?
fn replay_line(text: &[u8]) -> Result<(Question, bool), Fault> {
    let mut line = Line::new(text);
    let question = line.question().ok_or(Fault::Question)?;
    let same = question.replay(&mut line).ok_or(Fault::Word)?;
    line.text(b"\n").ok_or(Fault::Newline)?;
    Ok((question, same))
}

// All lines, and what they come to. One that is no case says nothing about the next, so every one is named.
fn replay(rt: &impl Print, list: &[u8]) -> io::Result<()> {
    let mut tallies = [Tally::default(); 9];
    let mut faults: u64 = 0;
    for (line, text) in (1..=ROOM).zip(list.split_inclusive(|c| *c == b'\n')) {
        match replay_line(text) {
            Ok((question, same)) => {
                let tally = &mut tallies[question as usize];
                tally.cases = tally.cases.saturating_add(1);
                if !same {
                    println!(rt; "line {line}: the answer differs")?;
                    tally.differ = tally.differ.saturating_add(1);
                }
            }
            Err(fault) => {
                println!(rt; "line {line}: {fault}")?;
                faults = faults.saturating_add(1);
            }
        }
    }
    for (name, Tally { cases, differ }) in Question::NAMES.iter().zip(&tallies) {
        println!(rt; "{name}: {cases} cases, {differ} differ")?;
    }
    println!(rt; "lines that are no case: {faults}")
}

// Reads until the buffer is full or the input ends, however few bytes come at a time, and gives how many were read.
// Each program has its own: a crate that they share would be longer.
fn read_full(mut from: Stdin, buf: &mut [u8]) -> io::Result<usize>
    ensures { IfOk result (λ n. IsPrefixLen n buf.new) }
{
    let mut done = 0;
    // no `for`: each read tells how many bytes it was
    while done < buf.len() {
        let more = from.read(&mut buf[done..])?;
        if more == 0 {
            break;
        }
        done += more;
    }
    Ok(done)
}

// Room for the list. A function of its own, so that no proof spells out this many zeros.
fn room() -> [u8; ROOM] {
    [0; ROOM]
}

// Reads the list and replays it.
fn replay_input(rt: &HostRuntime) -> io::Result<()> {
    let mut space = room();
    let size = read_full(rt.stdin(), &mut space)?;
    if size == ROOM {
        println!(rt; "the list fills its room")?;
    }
    replay(rt, &space[..size])
}

fn main(rt: HostRuntime) -> io::Result<()> {
    replay_input(&rt)?;
    limits::indices(&rt)?;
    limits::links(&rt)?;
    limits::heuristics(&rt)
}
