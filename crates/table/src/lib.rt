// The starred blocks of document 01: a statement and its proof, no code.
#![tactic(auto)]
