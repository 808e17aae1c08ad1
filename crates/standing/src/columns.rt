// Two columns that are looked at together.
ghost use Rattle.std.specs.Prelude.{◌≡◌, take};
ghost use Rattle.factor.specs.Lent.{common};
ghost use Rattle.standing.specs.Cells.{InRanges, Paired};

use crate::labels::past_labels;
use factor::common_plots;

// Two columns of one length, at most that of `PLOTS`; the labels of `f` are below `past_f`, those of `g` below `past_g`.
#[derive(Clone, Copy)]
pub struct Columns<'a> {
    pub f: &'a [u8],
    pub g: &'a [u8],
    pub past_f: usize,
    pub past_g: usize,
    ghost in_ranges: { InRanges past_f past_g f.now g.now },
}

impl<'a> Columns<'a> {
    // The common plots of two columns.
    pub fn common(f: &'a [u8], g: &'a [u8]) -> Self
        ensures first { result.f.now ≡ take (common f.entry.now g.entry.now) f.entry.now }
        ensures second { result.g.now ≡ take (common f.entry.now g.entry.now) g.entry.now }
    {
        let n = common_plots(f.len(), g.len());
        let f = &f[..n];
        let g = &g[..n];
        Columns {
            f,
            g,
            past_f: past_labels(f),
            past_g: past_labels(g),
        }
    }

    // The same columns, the one with the smaller range first.
    pub fn smaller_first(self) -> Self
        ensures { Paired result.f.now result.g.now self.entry.f.now self.entry.g.now }
    {
        if self.past_f <= self.past_g {
            return self;
        }
        Columns {
            f: self.g,
            g: self.f,
            past_f: self.past_g,
            past_g: self.past_f,
        }
    }
}
