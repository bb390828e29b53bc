// Walks over a relation of arcs: their totals in specs/, the theorems about them in proofs/.
