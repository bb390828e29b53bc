// A search by a heuristic over i64 costs: a cost below zero is bad, and no total is cut.
ghost use Rattle.search.specs.Ints.{guided};
ghost use Rattle.search.specs.Steps.{guided_asks};
ghost use Rattle.search.specs.IntRule.{guided_way, guided_right};

use crate::Rule;

// By the heuristic of each index, 0 past its end.
#[derive(Clone, Copy)]
pub struct Guided<'a> {
    pub guess: &'a [i64],
}

impl Rule for Guided<'_> {
    type Key = i64;

    type Cost = i64;

    ghost kind = { λ r. guided r.guess.now };

    ghost asks = { λ r. guided_asks r.guess.now };

    ghost way = { λ r. guided_way r.guess.now };

    fn none(self) -> i64 {
        clean::NONE_I64
    }

    fn zero(self) -> i64 {
        0
    }

    fn is_bad(self, cost: i64) -> bool {
        cost < 0
    }

    fn plus(self, d: i64, cost: i64) -> i64 {
        whole::plus(d, cost)
    }

    fn is_better(self, next: i64, stored: i64) -> bool {
        stored == clean::NONE_I64 || next < stored
    }

    fn key(self, d: i64, v: usize) -> i64 {
        if v < self.guess.len() {
            d + self.guess[v]
        } else {
            d
        }
    }

    ghost right = { λ r. guided_right r.guess.now };
}
