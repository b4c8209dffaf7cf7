// No code: `specs/` says what the width pass and the printer answer, from document 01 and the Rust.
#![tactic(auto)]
