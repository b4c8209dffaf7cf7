// No code: `specs/` has what `echo_formulas` answers.
#![tactic(auto)]
