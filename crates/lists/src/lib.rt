// What is said of lists, searches and tests: definitions and laws alone.
#![tactic(auto)]
