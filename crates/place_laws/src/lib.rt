// No code: `specs/` has what placing the nodes of a term comes to as its text is gone over, operand by operand.
#![tactic(auto)]
