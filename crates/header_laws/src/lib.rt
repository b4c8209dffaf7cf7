// No code: `specs/` proves what the header of a script says of its reading.
#![tactic(auto)]
