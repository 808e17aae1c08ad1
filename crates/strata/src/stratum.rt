// Strata and residuals. Places are counted from 0 inside, from 1 in the answers.
ghost use Rattle.std.specs.Prelude.{◌≡◌, ◌≤◌, ◌<◌, true, false, eqb, get_or, length, IfSome, MatchOption};
ghost use Rattle.rules.specs.Limits.{most_members};
ghost use Rattle.rules.specs.Factor.{classes, finer};
ghost use Rattle.rules.specs.Lists.{word_of};
ghost use Rattle.rules.specs.Strata.{question16};
ghost use Rattle.strata.specs.Answers.{analysis_in, analysis_from};
ghost use Rattle.strata.specs.Family.{column};
ghost use Rattle.strata.specs.Pair.{CandidatesBefore, CandidatesAsked, candidates_of, treatment_at, strata_places, all_placed};
ghost use Rattle.strata.specs.Sums.{Unsubtracted, residuals_of};
ghost use Rattle.strata.specs.Words.{WordsOf, numbered, below, coarsest, first_passing};

use crate::degrees;
use crate::degrees::less;
use crate::family::{Family, Pair};
use crate::order::{coarser_words, has};
use limits::MEMBERS;
use refusal::Refusal;

// All 0 past the sizes.
#[derive(Clone, Copy)]
pub struct Strata {
    // for each treatment member the place of its stratum, from 1
    pub places: [usize; MEMBERS],
    // for each plot member its residual degrees of freedom
    pub residuals: [i64; MEMBERS],
}

// Strata, with the degrees of freedom that their residuals are found by. All 0 past the sizes.
#[derive(Clone, Copy)]
pub struct Analysis {
    pub strata: Strata,
    // the degrees of freedom of each plot member
    pub totals: [i64; MEMBERS],
    // and of each treatment member
    pub degrees: [i64; MEMBERS],
}

// The place of the member with a class for each plot, which only the last can be.
fn finest_place(family: &Family) -> Option<usize>
    ensures { IfSome result (λ p. classes (column family.now p) ≡ family.now.plots) }
{
    let last = family.size - 1;
    (family.counted(last).classes == family.plots).then_some(last)
}

// Whether plot member `p` is finer than or equivalent to treatment member `t`. It is where it has a class for each plot, or where one
// of the coarser members in its word is, as `among` tells of those before it; else the columns decide.
fn is_candidate(
    pair: &Pair,
    p: usize,
    word: u32,
    among: u32,
    t: usize,
    finest: Option<usize>,
) -> bool
    requires { CandidatesBefore pair.now p word among t finest }
    ensures { result ≡ finer pair.now.plot.plots (column pair.now.plot p) (treatment_at pair.now t) }
{
    word & among != 0 || finest == Some(p) || pair.plot.finer(p, &pair.treatment, t)
}

// The plot members that are finer than or equivalent to treatment member `t`.
fn candidates(pair: &Pair, words: &[u32; MEMBERS], t: usize, finest: Option<usize>) -> u32
    requires { CandidatesAsked pair.now words.now t finest }
    ensures { result ≡ candidates_of pair.now t }
{
    let mut among = 0;
    for (p, &word) in words[..pair.plot.size].iter().enumerate() {
        if is_candidate(pair, p, word, among, t, finest) {
            among |= 1u32 << p;
        }
    }
    among
}

// Whether plot member `q`, with its word of coarser members, is no candidate, or `p` itself, or finer than `p`.
fn is_below(word: u32, among: u32, p: usize, q: usize) -> bool
    requires { (p < most_members) × (q < most_members) }
    ensures { result ≡ below word among p q }
{
    !has(among, q) || q == p || has(word, p)
}

// Whether `p` is a candidate to which every other candidate is finer.
fn is_coarsest(words: &[u32], among: u32, p: usize) -> bool
    requires { (length words.now ≤ most_members) × (p < most_members) }
    ensures { result ≡ coarsest words.now (length words.now) among p }
{
    has(among, p)
        && words
            .iter()
            .enumerate()
            .all(|(q, &word)| is_below(word, among, p, q))
}

// The place of the coarsest candidate.
fn coarsest_place(words: &[u32], among: u32) -> Option<usize>
    requires { length words.now ≤ most_members }
    ensures { numbered result ≡ first_passing (coarsest words.now (length words.now) among) 0 (length words.now) }
{
    (0..words.len()).find(|&p| is_coarsest(words, among, p))
}

// The places of the strata of all treatment members, from 1. 16: None where one has no stratum. (The loop counts members, since a proof
// knows nothing of what is written through `iter_mut`.)
fn places(pair: &Pair, words: &[u32; MEMBERS]) -> Option<[usize; MEMBERS]>
    requires { WordsOf pair.now.plot words.now }
    ensures { MatchOption result (all_placed pair.now ≡ false) (λ found. (all_placed pair.now ≡ true) × (found ≡ strata_places pair.now)) }
{
    let finest = finest_place(&pair.plot);
    let mut places = [0; MEMBERS];
    for t in 0..pair.treatment.size {
        let among = candidates(pair, words, t, finest);
        let place = coarsest_place(&words[..pair.plot.size], among)?;
        places[t] = place + 1;
    }
    Some(places)
}

// The treatment members whose stratum has the place `place`, from 1.
fn stratum_word(places: &[usize], place: usize) -> u32
    requires { length places.now ≤ most_members }
    ensures { result ≡ word_of (λ t. eqb (get_or places.now t 0) place) (length places.now) }
{
    let mut word = 0;
    for (t, &other) in places.iter().enumerate() {
        if other == place {
            word |= 1u32 << t;
        }
    }
    word
}

// What is left to each plot member when the numbers of the treatment members in its stratum are taken from its own.
fn residuals(own: &[i64], numbers: &[i64], places: &[usize]) -> [i64; MEMBERS]
    requires { Unsubtracted own.now numbers.now places.now }
    ensures { result ≡ residuals_of own.now numbers.now places.now }
{
    let mut left = [0; MEMBERS];
    for (p, &start) in own.iter().enumerate() {
        let number = less(start, stratum_word(places, p + 1), numbers);
        left[p] = number;
    }
    left
}

// From question 16 on.
pub fn from_16(pair: &Pair) -> Result<Analysis, Refusal>
    ensures { analysis_in result ≡ analysis_from question16 pair.now.plot.plots pair.now.plot.bytes.now pair.now.plot.size pair.now.treatment.bytes.now pair.now.treatment.size }
{
    let words = coarser_words(&pair.plot);
    let places = places(pair, &words).ok_or(Refusal::Stratum)?;
    let totals = degrees::by_words(&pair.plot, &words);
    let degrees = degrees::of_family(&pair.treatment);
    let residuals = residuals(
        &totals[..pair.plot.size],
        &degrees[..pair.treatment.size],
        &places[..pair.treatment.size],
    );
    Ok(Analysis {
        strata: Strata { places, residuals },
        totals,
        degrees,
    })
}
