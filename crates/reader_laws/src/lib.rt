// No code: `specs/` proves that the reader reads what the printer writes, and nothing else.
#![tactic(auto)]
