// Every constant table of the library, beside what the tables program works out: a statement and its proof, no code.
#![tactic(auto)]
