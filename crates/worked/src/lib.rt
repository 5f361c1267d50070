// The plans of document 01's worked numbers. No code.
#![tactic(auto)]
