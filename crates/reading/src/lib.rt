// No code: `specs/` has the types of document 01's trees and readings.
#![tactic(auto)]
