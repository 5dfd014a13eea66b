// Runs of two cabinets by computation, over the rules. Definitions and theorems alone, no code.
#![tactic(auto)]
