// Request P7: what a guest can tell of a history is the same whatever other guests are and do. No code.
#![tactic(auto)]
