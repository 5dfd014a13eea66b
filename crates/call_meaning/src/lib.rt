// Theorems on every call: what a refusal leaves, and what each end of a call keeps. No code.
#![tactic(auto)]
