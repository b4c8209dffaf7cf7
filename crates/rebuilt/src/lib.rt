// No code: `specs/` proves that the problem that a reading is rebuilt as is accepted by the printer, and has that reading.
#![tactic(auto)]
