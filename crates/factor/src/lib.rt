// Factors as columns, one label a plot. An input column is a slice, an output column an array; at most 240 plots are treated.

#![tactic(auto)]

mod extremes;
mod labels;
mod nesting;
mod order;
mod parts;
mod plots;
mod sizes;

pub use extremes::equality;
pub use labels::largest;
pub use nesting::finer;
pub use order::{alike, smaller};
pub use parts::part;
pub use plots::common_plots;
pub use sizes::{label_sizes, uniform};
