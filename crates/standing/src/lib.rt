// How two factors stand, and what they make together: infimum, supremum and orthogonality, by their columns.

#![tactic(auto)]

mod cells;
mod columns;
mod comparing;
mod join;
mod labels;
mod many;
mod meet;
mod numbers;
mod pair;

pub use comparing::{Comparison, compare};
pub use meet::infimum;
pub use pair::{Bounds, Crossing, bounds_of, crossing_of};
