// No code: `specs/` has the hidden form of a script, what `echo_hidden` answers, and that covering the digits of the plain script gives it.
#![tactic(auto)]
