// 01's nets (from rule Order of the numbers on): what one argument makes of a net, the composed net and how it is read at a moment,
// as definitions and theorems. Who sums a composed net is crate `sums`; here there is no code, only the type of an argument's shares.
// Terms and runs (`runs` of its definitions and laws): the sum over all choices of terms is the sum over non-decreasing runs of them, each weighed by
// its arrangements; how much weight a run has still to give, and which nets it forms. Laws over any list of terms.
#![tactic(auto)]

// What an argument gives of each of three neighbours, in 1/1024: x of p(i+1,j), y of p(i,j+1), z of p(i,j).
#[derive(Clone, Copy)]
pub struct Shares {
    pub x: u64,
    pub y: u64,
    pub z: u64,
}
