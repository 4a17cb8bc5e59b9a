// The words that all layers share: sums and counts over places, lists of octets, words woven into a row.
// They are definitions, in specs/, and lemmas on them, in proofs/; there is no code.
#![tactic(auto)]
