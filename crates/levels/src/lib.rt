// The level table in lent memory: its columns, these numbered, and question 7.
#![tactic(auto)]

ghost use Rattle.std.specs.Prelude.{◌≡◌};
ghost use Rattle.rules.specs.Factor.{at, number, classes};
ghost use Rattle.rules.specs.Family.{columns_from};
ghost use Rattle.rules.specs.Design.{nonzero, all_nonzero};
ghost use Rattle.factor.specs.Lent.{column_at, plots_of, overlay};

use limits::{Level, PLOTS};

// Column `c`, from 0, of a level table on `n` plots, or as much of it as the slice has.
pub fn column(levels: &[Level], c: usize, n: usize) -> &[Level]
    ensures { result.now ≡ column_at n levels.now c }
{
    factor::part(levels, c, n)
}

// The level of plot `u` in column `c`, both from 0, of a level table on `n` plots; 0 where there is none, as the rules' `at` tells it.
pub fn level(levels: &[Level], c: usize, n: usize, u: usize) -> Level
    ensures { result ≡ at (column_at n levels.now c) u }
{
    column(levels, c, n).get(u).copied().unwrap_or(0)
}

// Numbers column `c`, from 0, of a level table on `n` plots by first appearance; answers how many classes it has.
pub fn column_numbers(levels: &[Level], c: usize, n: usize, out: &mut [u8; PLOTS]) -> usize
    ensures answer { result ≡ classes (plots_of (column_at n levels.now c)) }
    ensures numbers { out.new ≡ overlay out.old (number (plots_of (column_at n levels.now c))) }
{
    numbering::number_levels(column(levels, c, n), n, out)
}

// Whether no level of a column is 0.
fn nonzero(column: &[Level]) -> bool
    ensures { result ≡ nonzero column.now }
{
    column.iter().all(|&level| level != 0)
}

// 7: is every level of the columns from `first` on, `count` of them, nonzero? Past the slice there is no level.
pub fn all_nonzero(levels: &[Level], n: usize, first: usize, count: usize) -> bool
    ensures { result ≡ all_nonzero (columns_from n levels.now first count) }
{
    let end = first.saturating_add(count).min(levels.len() / PLOTS + 1);
    for c in first..end {
        if !nonzero(column(levels, c, n)) {
            return false;
        }
    }
    true
}
