// The reading of a settlement: its definitions stand in specs/ and what is proved of them in proofs/.
// There is no code here; the reader that meets the definitions is a crate above this one.
#![tactic(auto)]
