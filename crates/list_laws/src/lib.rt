//! Laws of lists that stand on no part of the card: what is found in them, what all of their elements have, parts of them, and bytes
//! put in place. They are lemmas, which the proofs of the other crates cite.
#![tactic(auto)]
