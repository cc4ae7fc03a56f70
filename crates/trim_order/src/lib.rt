// The order of the words plays no part in a fit after trimming, nor in its model on the grid: the sums
// are exact, the median takes the numbers whatever their order, and the samples that stay are the same
// words. It has no code of its own; docs/RULES.md, 'Trimming', is what it speaks of.
#![tactic(auto)]
