// Families that question 15 accepts, in lent memory. Members are counted from 0.
ghost use Rattle.std.specs.Prelude.{◌≡◌};
ghost use Rattle.strata.specs.Lent.{Formed};

use refusal::Refusal;

// 1 to 32 members in the numbering and order of the rules, no two alike, in a buffer that is long enough.
#[derive(Clone, Copy)]
pub struct Family<'a> {
    pub bytes: &'a [u8],
    pub plots: usize,
    pub size: usize,
    ghost formed: { Formed plots bytes.now size },
}

// A plot family and a treatment family, on the same plots.
#[derive(Clone, Copy)]
pub struct Pair<'a> {
    pub plot: Family<'a>,
    pub treatment: Family<'a>,
    ghost same_plots: { treatment.plots ≡ plot.plots },
}

// A member, by its place, with its number of classes.
#[derive(Clone, Copy)]
pub struct Counted {
    pub place: usize,
    pub classes: usize,
}

impl<'a> Family<'a> {
    ghost use Rattle.std.specs.Prelude.{◌≡◌, ◌<◌, true, false, None, Some, IfOk, IfErr};
    ghost use Rattle.rules.specs.Factor.{finer};
    ghost use Rattle.families.specs.Lent.{formed_in};
    ghost use Rattle.strata.specs.Lent.{family_refusal};
    ghost use Rattle.strata.specs.Family.{column, IsCounted};

    // The family that a buffer lends, once 15 says yes.
    pub fn new(bytes: &'a [u8], plots: usize, size: usize) -> Result<Self, Refusal>
        ensures ok { IfOk result (λ f. (f.bytes.now ≡ bytes.now) × (f.plots ≡ plots) × (f.size ≡ size) × (formed_in plots bytes.now size ≡ true)) }
        ensures err { IfErr result (λ q. (q ≡ Refusal.Family) × (formed_in plots bytes.now size ≡ false)) }
    {
        if !families::well_formed(bytes, plots, size) {
            return Err(Refusal::Family);
        }
        Ok(Family { bytes, plots, size })
    }

    // The same, once 6 and then 15 say yes.
    pub fn accepted(bytes: &'a [u8], plots: usize, size: usize) -> Result<Self, Refusal>
        ensures ok { IfOk result (λ f. (f.bytes.now ≡ bytes.now) × (f.plots ≡ plots) × (f.size ≡ size) × (family_refusal plots bytes.now size ≡ None)) }
        ensures err { IfErr result (λ q. family_refusal plots bytes.now size ≡ Some q) }
    {
        if !families::within(plots, bytes.len()) {
            return Err(Refusal::Limits);
        }
        Family::new(bytes, plots, size)
    }

    // The labels of member `i`.
    fn member(&self, i: usize) -> &'a [u8]
        ensures { result.now ≡ column self.now i }
    {
        families::member(self.bytes, i, self.plots)
    }

    // Member `i` with its number of classes, which is its largest number.
    pub fn counted(&self, i: usize) -> Counted
        requires { i < self.now.size }
        ensures member { IsCounted self.now result }
        ensures place { result.place ≡ i }
    {
        Counted {
            place: i,
            classes: usize::from(factor::largest(self.member(i))),
        }
    }

    // Whether member `i` is finer than or equivalent to member `j` of another family on the same plots.
    pub fn finer(&self, i: usize, other: &Family<'a>, j: usize) -> bool
        requires { (i < self.now.size) × (j < other.now.size) × (self.now.plots ≡ other.now.plots) }
        ensures { result ≡ finer self.now.plots (column self.now i) (column other.now j) }
    {
        factor::finer(self.member(i), other.member(j))
    }
}
