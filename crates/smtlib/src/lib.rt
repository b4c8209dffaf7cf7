// No code: `specs/` says what the bytes of an SMT-LIB script mean, written from the standard (version 2.6) alone.
#![tactic(auto)]
