// Document 01's starred cases: the table and the statement stand in specs/, the theorem in proofs/.
#![tactic(auto)]
