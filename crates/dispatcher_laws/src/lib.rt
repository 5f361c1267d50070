// What a tick and a release do to a state, and that a state in its ranges stays so; nothing here speaks of histories.
// No code.
#![tactic(auto)]
