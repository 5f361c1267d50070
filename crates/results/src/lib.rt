// The promises: statements that a customer's engineer can read, each proved by a line that cites the work. No code.
#![tactic(auto)]
