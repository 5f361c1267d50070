// Demand 3, and where the ticks went, about the dispatcher's own definitions, over any history of calls from a fresh
// start. No code.
#![tactic(auto)]
