#![tactic(auto)]

// Sums, tests and lists over the numbers below a bound: definitions and laws that the crates above cite. It has no code.
