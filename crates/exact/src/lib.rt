// The sums of the three fits over lists of sample words are exact, and so the order of the words
// plays no part in a fit, nor in its model on the grid. It has no code of its own; docs/RULES.md,
// 'Fits and score', is what it speaks of.
#![tactic(auto)]
