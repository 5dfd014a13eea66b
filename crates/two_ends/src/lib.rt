// Two cabinets over any run: nothing lost, nothing twice. Definitions and theorems alone, no code.
#![tactic(auto)]
