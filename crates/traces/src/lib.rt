// No code: `specs/` has what the replay of a trace answers (document 02, L9).
#![tactic(auto)]
