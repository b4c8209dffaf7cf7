// No code: `specs/Claims.antt` states what this project promises, each claim proved in a line or two from the crates below.
#![tactic(auto)]
