// A search with a cutoff at a limit over f64 costs. Distances, keys and costs are patterns.
ghost use Rattle.search.specs.Floats.{kind64, limited_asks};
ghost use Rattle.search.specs.FloatRule.{limited_way, limited_right};

use crate::Rule;

// No total past the limit is stored.
#[derive(Clone, Copy)]
pub struct Limited {
    pub limit: f64,
}

impl Rule for Limited {
    type Key = u64;

    type Cost = u64;

    ghost kind = { λ r. kind64 r.limit };

    ghost asks = { λ r. limited_asks };

    ghost way = { λ r. limited_way r.limit };

    fn none(self) -> u64 {
        clean::NONE_F64
    }

    fn zero(self) -> u64 {
        0
    }

    fn is_bad(self, cost: u64) -> bool {
        float::bad_cost(cost)
    }

    fn plus(self, d: u64, cost: u64) -> u64 {
        float::plus(d, cost)
    }

    fn is_better(self, next: u64, stored: u64) -> bool {
        float::better(self.limit, next, stored)
    }

    fn key(self, d: u64, _v: usize) -> u64 {
        d
    }

    ghost right = { λ r. limited_right r.limit };
}
