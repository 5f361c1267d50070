// Theorems of converted plans, about the definitions alone: what is written reads as the plan with each guest made
// Periodic, and what of the bytes changes.
#![tactic(auto)]
