// What the verdicts and the smallest capacity mean, and what a quoted task keeps of a dispatcher's state. Theorems, and
// no code.
#![tactic(auto)]
