// No code: `specs/` has what each symbol of the theories means, and that the value of a tree goes by it.
#![tactic(auto)]
