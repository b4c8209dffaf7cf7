// No code: `specs/` proves when bytes are a problem's script, and what printing gives of what was read.
#![tactic(auto)]
