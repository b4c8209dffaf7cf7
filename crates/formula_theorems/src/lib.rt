// No code: `specs/` proves that a formula has one reading, and that none of its brackets can be left out.
#![tactic(auto)]
