// The equations of guests and tasks, over any functions: definitions and laws, and no code.
#![tactic(auto)]
