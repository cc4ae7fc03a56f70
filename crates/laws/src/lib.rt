// Definitions and laws that more than one crate cites: loops, the table of refusals, buffers
// written from the front, lists. It has no code of its own; docs/RULES.md, 'When a call says no'
// and 'The strength of each contract', is what the table answers to.
#![tactic(auto)]
