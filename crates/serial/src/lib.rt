// The plain evaluation one task at a time, over any step and join: the definitions and the statement stand in specs/, the proof in proofs/.
#![tactic(auto)]
