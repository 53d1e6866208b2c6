// The starred trial pieces of docs/RULES.md, "Trial pieces".
#![tactic(auto)]
