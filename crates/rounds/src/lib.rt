// Rounds on lanes, of every job that start accepts: the definitions and statements stand in specs/, the theorems in proofs/.
#![tactic(auto)]
