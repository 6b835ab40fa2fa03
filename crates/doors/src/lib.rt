// A table of the engine's doors: its rows and the statement stand in specs/, the theorem in proofs/.
#![tactic(auto)]
