// No code: `specs/` has what a chain of iterators answers, in the words of `lists`.
#![tactic(auto)]
