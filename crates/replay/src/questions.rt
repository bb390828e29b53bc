// The questions of the list, by their numbers there.
use crate::reads::Line;
use crate::{floats, ints};

#[derive(Clone, Copy)]
pub enum Question {
    Dijkstra,
    BellmanFord,
    AStar,
    FloydWarshall,
    Johnson,
    Hops,
    DijkstraPathImpl,
    DijkstraPathF64,
    HopsF64,
}

impl Question {
    // The names, in the order of the numbers.
    pub const NAMES: [&'static str; 9] = [
        "dijkstra",
        "bellman_ford",
        "a_star",
        "floyd_warshall",
        "johnson",
        "hops",
        "dijkstra_path_impl",
        "dijkstra_path_f64",
        "hops_f64",
    ];

    pub fn from_number(number: usize) -> Option<Question> {
        match number {
            1 => Some(Question::Dijkstra),
            2 => Some(Question::BellmanFord),
            3 => Some(Question::AStar),
            4 => Some(Question::FloydWarshall),
            5 => Some(Question::Johnson),
            6 => Some(Question::Hops),
            7 => Some(Question::DijkstraPathImpl),
            8 => Some(Question::DijkstraPathF64),
            9 => Some(Question::HopsF64),
            _ => None,
        }
    }

    // Reads the case that follows, asks, and sees whether the answer is the original's.
    pub fn replay(self, line: &mut Line<'_>) -> Option<bool> {
        match self {
            Question::Dijkstra => ints::Case::read(line)?.dijkstra(line),
            Question::BellmanFord => ints::Case::read(line)?.bellman_ford(line),
            Question::AStar => ints::Case::read(line)?.a_star(line),
            Question::FloydWarshall => ints::Case::read(line)?.floyd_warshall(line),
            Question::Johnson => ints::Case::read(line)?.johnson(line),
            Question::Hops => ints::Case::read(line)?.hops(line),
            Question::DijkstraPathImpl => floats::Case::read(line)?.path(
                line,
                dijkstra_path::dijkstra_path_impl,
            ),
            Question::DijkstraPathF64 => floats::Case::read(line)?.path(
                line,
                dijkstra_path::dijkstra_path_f64,
            ),
            Question::HopsF64 => floats::Case::read(line)?.hops(line),
        }
    }
}
