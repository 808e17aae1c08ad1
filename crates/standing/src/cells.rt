// Cells: a cell is what a class of one factor and a class of the other have in common. It is known by the two labels.
// Sizes by cells, and orthogonality.
ghost use Rattle.std.specs.Prelude.{◌≡◌, ℕ, ◌+◌, ◌*◌, ◌≤◌, ◌<◌, length, take, replicate, slice_set};
ghost use Rattle.rules.specs.Limits.{most_plots};
ghost use Rattle.standing.specs.Cells.{Summed, label_sum, even_cells, Cover};

use crate::join::Joins;
use limits::PLOTS;

// The labels of `count` cells. There is an array for each column, and not one of pairs, since a walk goes over the labels of one column.
#[derive(Drop)]
pub struct Cells {
    pub f: [u8; PLOTS],
    pub g: [u8; PLOTS],
    pub count: usize,
    ghost few: { count ≤ most_plots },
}

impl Cells {
    // No cell.
    pub fn new() -> Self
        ensures first { result.f ≡ replicate most_plots 0 }
        ensures second { result.g ≡ replicate most_plots 0 }
        ensures none { result.count ≡ 0 }
    {
        Cells {
            f: [0; PLOTS],
            g: [0; PLOTS],
            count: 0,
        }
    }

    // Adds a cell.
    pub fn push(&mut self, x: u8, y: u8)
        requires { self.old.count < most_plots }
        ensures first { self.new.f ≡ slice_set self.old.f self.old.count x }
        ensures second { self.new.g ≡ slice_set self.old.g self.old.count y }
        ensures count { self.new.count ≡ self.old.count + 1 }
    {
        let place = self.count;
        self.f[place] = x;
        self.g[place] = y;
        self.count = place + 1;
    }

    // The labels in the first column.
    pub fn first(&self) -> &[u8]
        ensures { result.now ≡ take self.now.count self.now.f }
    {
        &self.f[..self.count]
    }

    // The labels in the second column.
    pub fn second(&self) -> &[u8]
        ensures { result.now ≡ take self.now.count self.now.g }
    {
        &self.g[..self.count]
    }
}

// How many plots have each label of a column: `labels` are those of the listed cells, and the size of the cell at place i is at i + 1.
pub(crate) fn sum_cells(sizes: &[u8; 256], labels: &[u8]) -> [u8; 256]
    requires few { length labels.now ≤ most_plots }
    requires small { (z : ℕ) → label_sum sizes.now labels.now z ≤ most_plots }
    ensures { Summed sizes.now labels.now result }
{
    let mut sums = [0u8; 256];
    for (i, &x) in labels.iter().enumerate() {
        sums[x as usize] += sizes[i + 1];
    }
    sums
}

// The product of two sizes.
fn product(x: u8, y: u8) -> u16
    ensures { result ≡ x * y }
{
    x as u16 * y as u16
}

// Whether for each listed cell the sizes of the cell and of its class of the supremum make the product that those of its labels make.
pub(crate) fn even_cells(
    sizes: &[u8; 256],
    joins: &Joins,
    in_k: &[u8; 256],
    in_f: &[u8; 256],
    in_g: &[u8; 256],
    cells: &Cells,
) -> bool
    ensures { result ≡ even_cells sizes.now joins.now.entries in_k.now in_f.now in_g.now (take cells.now.count cells.now.f) (take cells.now.count cells.now.g) }
{
    let f = cells.first();
    let g = cells.second();
    for (i, &x) in f.iter().enumerate() {
        let y = g[i];
        let k = joins.entries[x as usize];
        let left = product(sizes[i + 1], in_k[k as usize]);
        let right = product(in_f[x as usize], in_g[y as usize]);
        if left != right {
            return false;
        }
    }
    true
}
