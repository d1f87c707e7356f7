// No code: runs of calls on words, with the history beside them.

#![tactic(auto)]
