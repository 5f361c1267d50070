// Theorems of a plan and an amendment sheet, about the definitions alone: the pair is the plan with those blocks
// replaced.
#![tactic(auto)]
