#![tactic(auto)]

// What follows from the theorems that docs/AUDIT.md names, in proofs/: each of them carries a law here that is proved from it. No code.
