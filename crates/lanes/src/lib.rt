// Rounds of picks on a number of lanes, over any step and join: the definitions and statements stand in specs/, the laws in proofs/.
#![tactic(auto)]
