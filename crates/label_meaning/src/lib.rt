// Theorems on the label list: what validity means, what each event changes, and the life of a label. No code.
#![tactic(auto)]
