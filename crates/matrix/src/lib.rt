#![tactic(auto)]

// What the two questions on all pairs promise, in specs/; its laws, in proofs/. No code.
