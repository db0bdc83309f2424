#![tactic(auto)]

// The marked examples of the rules, proved of the definitions: specs/Examples.antt states them, proofs/Examples.antt proves them.
