// Words that every layer uses, and that are no part of the code's mathematics: definitions in specs/, laws in proofs/; no code.
#![tactic(auto)]
