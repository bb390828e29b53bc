#![tactic(auto)]

// What the lent lists of a search say to the pending bag, and what an arc, a row and a take make of it:
// laws only, once for any keys and costs.
