// No code: what follows from the paper's definitions, for every crate above.

#![tactic(auto)]
