// Büchi automata, their runs on lassos, and the exploring of systems. There is no code here: definitions stand in specs/, theorems in proofs/.
#![tactic(auto)]
