#![tactic(auto)]

// The pending bag of document 01: as definitions in specs/, with its theorems in proofs/.
