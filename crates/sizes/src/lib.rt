// No code: `specs/` has how many terms a tree has, what `echo_size` answers, and the bounds on terms and on the length of a script.
#![tactic(auto)]
