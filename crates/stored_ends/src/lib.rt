// Two cabinets with memory and medium: theorems over runs with power cut anywhere. No code.
#![tactic(auto)]
