// What a job's run hands out, read off its plain evaluation: definition and statement stand in specs/, the laws in proofs/.
#![tactic(auto)]
