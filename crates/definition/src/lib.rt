#![tactic(auto)]

// The definition has no code: read specs/ in the order of specs/Lib.antt; proofs/ holds its laws.
