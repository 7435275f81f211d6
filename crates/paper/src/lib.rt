#![tactic(auto)]

// The paper's numbers and the three demands, as statements over the definitions of the other crates. There is no code here: the pages to read
// are specs/Table, with the paper's numbers, and specs/Demand1, Demand2 and Demand3; proofs/ shows each.
