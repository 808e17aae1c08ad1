// Families of the trials, written into family buffers. Members and plots are counted from 0.
ghost use Rattle.std.specs.Prelude.{◌<◌};

use limits::{FAMILY, MEMBERS, PLOTS};

// The worked examples.
#[derive(Clone, Copy)]
pub enum Trial {
    Trees,
    Subjects,
    Benches,
    Rootstocks,
    Composting,
}

impl Trial {
    // Writes the families of the trial's first `n` plots.
    pub fn fill(self, n: usize, plot: &mut [u8; FAMILY], treatment: &mut [u8; FAMILY]) {
        for u in 0..n.min(PLOTS) {
            self.levels(u, plot, treatment);
        }
    }

    // Writes the levels of one plot.
    fn levels(self, u: usize, plot: &mut [u8; FAMILY], treatment: &mut [u8; FAMILY])
        requires { u < 240 }
    {
        match self {
            Trial::Trees => tree(u, plot, treatment),
            Trial::Subjects => subject(u, plot, treatment),
            Trial::Benches => bench(u, plot, treatment),
            Trial::Rootstocks => rootstock(u, plot, treatment),
            Trial::Composting => composting(u, plot, treatment),
        }
    }
}

// Writes the level of one plot.
fn put(family: &mut [u8; FAMILY], i: usize, u: usize, level: usize) {
    if i < MEMBERS && u < PLOTS {
        family[PLOTS * i + u] = (level % 256) as u8;
    }
}

// Writes the levels of one plot, member by member.
fn put_all(family: &mut [u8; FAMILY], u: usize, levels: &[usize]) {
    for (i, &level) in levels.iter().enumerate() {
        put(family, i, u, level);
    }
}

// Writes members of `n` plots, one after the other; their levels are digits.
pub fn columns(family: &mut [u8; FAMILY], n: usize, digits: &[u8])
    requires { 0 < n }
{
    for (k, &digit) in digits.iter().enumerate() {
        put(family, k / n, k % n, usize::from(digit % 16));
    }
}

// Example 1: U, blocks, E; U, sprays, pruning, their infimum.
fn tree(u: usize, plot: &mut [u8; FAMILY], treatment: &mut [u8; FAMILY])
    requires { u < 240 }
{
    put_all(plot, u, &[1, u / 5 + 1, u + 1]);
    put_all(
        treatment,
        u,
        &[1, u / 10 + 1, u % 5 + 1, u / 10 * 5 + u % 5 + 1],
    );
}

// Example 2: U, subjects, E; U, age, gender, attraction, and their infima.
fn subject(u: usize, plot: &mut [u8; FAMILY], treatment: &mut [u8; FAMILY])
    requires { u < 240 }
{
    put_all(plot, u, &[1, u / 2 + 1, u + 1]);
    put_all(
        treatment,
        u,
        &[
            1,
            u / 20 + 1,
            u / 10 % 2 + 1,
            u % 2 + 1,
            u / 10 + 1,
            u / 20 * 2 + u % 2 + 1,
            u / 10 % 2 * 2 + u % 2 + 1,
            u / 10 * 2 + u % 2 + 1,
        ],
    );
}

// Example 3: U, benches, sections, E; U, variety, dose, their infimum.
fn bench(u: usize, plot: &mut [u8; FAMILY], treatment: &mut [u8; FAMILY])
    requires { u < 240 }
{
    put_all(plot, u, &[1, u / 8 + 1, u / 2 + 1, u + 1]);
    put_all(treatment, u, &[1, u % 2 + 1, u / 2 % 4 + 1, u % 8 + 1]);
}

// The plots of example 4: U, columns, rows, sub-columns, cells, E.
fn rootstock_plots(u: usize, plot: &mut [u8; FAMILY])
    requires { u < 240 }
{
    put_all(
        plot,
        u,
        &[
            1,
            u / 20 + 1,
            u % 5 + 1,
            u / 5 + 1,
            u / 20 * 5 + u % 5 + 1,
            u + 1,
        ],
    );
}

// Example 4: its plots; U, soil treatments, rootstocks, their infimum.
fn rootstock(u: usize, plot: &mut [u8; FAMILY], treatment: &mut [u8; FAMILY])
    requires { u < 240 }
{
    rootstock_plots(u, plot);
    let k = (u % 5 + u / 20) % 5;
    put_all(
        treatment,
        u,
        &[1, u / 5 % 4 + 1, k + 1, u / 5 % 4 * 5 + k + 1],
    );
}

// The extension: the same plots; U, fumigation, composting, their infimum, rootstocks, and the infima with these.
fn composting(u: usize, plot: &mut [u8; FAMILY], treatment: &mut [u8; FAMILY])
    requires { u < 240 }
{
    rootstock_plots(u, plot);
    let k = (u % 5 + u / 20) % 5;
    put_all(
        treatment,
        u,
        &[
            1,
            u / 10 % 2 + 1,
            u / 5 % 2 + 1,
            u / 5 % 4 + 1,
            k + 1,
            u / 10 % 2 * 5 + k + 1,
            u / 5 % 2 * 5 + k + 1,
            u / 5 % 4 * 5 + k + 1,
        ],
    );
}
