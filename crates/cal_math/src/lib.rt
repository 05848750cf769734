//! Laws of whole numbers, sums over lists, and the integer logarithm. Definitions and lemmas alone.
#![tactic(auto)]
