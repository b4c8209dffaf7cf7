// No code: `specs/` has laws of the answer of the printer with `let` that its code and the theorems share.
#![tactic(auto)]
