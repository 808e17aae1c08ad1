// What a table is written from.
ghost use Rattle.table.specs.Found.{Whole};

use crate::names::Names;
use strata::Analysis;

// The number of plots, the names of the members of both families, and what was found for them.
#[derive(Clone, Copy)]
pub struct Skeleton<'a> {
    pub plots: usize,
    pub strata: &'a Names,
    pub sources: &'a Names,
    pub found: &'a Analysis,
    ghost whole: { Whole found.now },
}
