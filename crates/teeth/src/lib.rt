// Wrong machines: document 01's list and the demands that they break stand in specs/, the refutations in proofs/.
#![tactic(auto)]
