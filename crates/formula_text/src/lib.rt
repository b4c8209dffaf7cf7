// No code: `specs/` has the text of a tree as a formula, and what `echo_formulas` answers.
#![tactic(auto)]
