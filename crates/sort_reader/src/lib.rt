// No code: `specs/` has the sort of a term as it is read, operand by operand, and proves that it is the sort of the tree that is read.
#![tactic(auto)]
