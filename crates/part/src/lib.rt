// A part of a curve and the record that the f64 card answers to it (rule Part of a curve; 02, ticket 11): the two types, by value.
// What the answer is stands in specs/, what is true of it in proofs/; crate `card` works it out. No code here.
#![tactic(auto)]

// A part of a curve: a stay at one path number, or a line between two.
#[derive(Clone, Copy)]
pub enum Part {
    Stay(f64),
    Line(f64, f64),
}

// number and place as 01 has them (rule Refusals); how many numerators there are, and the numerators: plus zero where unused.
// kept: the C interface has the numbers, and `Shows` in specs/Contract.antt speaks of each
#[derive(Clone, Copy)]
pub struct Card {
    pub number: u32,
    pub place: usize,
    pub count: usize,
    pub numerators: [f64; 5],
}
