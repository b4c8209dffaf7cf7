// No code: `specs/` has what `read_script` answers, the problem that a reading is rebuilt as, and computed examples.
#![tactic(auto)]
