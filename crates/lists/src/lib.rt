// No code: `specs/` has the bytes of a text literal and the tests over lists that both sides of the project use.
#![tactic(auto)]
