// The proof that all orders of picks agree, over any step and join: the definitions and statements stand in specs/, the laws in proofs/.
#![tactic(auto)]
