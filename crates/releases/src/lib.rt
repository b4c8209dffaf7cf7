// No code: `specs/` has what `check_release` answers, computed examples and laws.
#![tactic(auto)]
