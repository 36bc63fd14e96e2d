// Steps that proofs by hand shared, of functions over lent records. There is no code here, and nothing cites them now.
#![tactic(auto)]
