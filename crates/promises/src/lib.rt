#![tactic(auto)]

// What the promises of all questions say together: the demands as theorems,
// and what every engine gives on the small maps S1 to S9, in proofs/; what these speak of, in specs/. No code.
