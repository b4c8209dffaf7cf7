// No code: `specs/` proves what a printed script holds, what it says and how it is sorted.
#![tactic(auto)]
