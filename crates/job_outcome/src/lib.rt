// What a job reports and leaves, and demand 3 as a theorem over that definition (docs/RULES.md, 'Job').
// The report is declared here; the call that makes it is `job::job`.
// A row of the table of refusals (0: none), the seven types and models in rising order of reference
// as stored, the score of the fitted one, the bits of the header, and how many samples there are.
#![tactic(auto)]

#[repr(C)]
#[derive(Clone, Copy, Debug, PartialEq)]
pub struct Report {
    pub refusal: u32,
    pub types: [u8; 7],
    pub models: [i32; 42],
    pub score: f64,
    pub bits: usize,
    pub samples: usize,
}
