// No code: `specs/` has the tokens and the grammar of formulas, and the proof that tokens and phrases are found in one way.
#![tactic(auto)]
