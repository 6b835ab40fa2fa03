// Small facts that the library lacks, for all proofs: they stand in proofs/.
#![tactic(auto)]
