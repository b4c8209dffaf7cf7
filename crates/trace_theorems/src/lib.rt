// No code: `specs/` proves that what printing, `Wide` and `Values` do not refuse can be evaluated, and that a mask is that of the assertions of
// the reading.
#![tactic(auto)]
