// No code: `specs/` has which roots are the fewest that still refuse a problem, what `fewest_roots` answers, and the laws of both.
#![tactic(auto)]
