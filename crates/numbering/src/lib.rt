// Numbering by first appearance: equivalent columns become equal. A column of levels is a slice, that of numbers an array; at most 240 plots
// are numbered.
#![tactic(auto)]

ghost use Rattle.std.specs.Prelude.{◌≡◌, ◌+◌, ◌<◌, ◌≤◌, take, slice_index, slice_set};
ghost use Rattle.rules.specs.Limits.{most_plots};
ghost use Rattle.rules.specs.Factor.{number, classes};
ghost use Rattle.factor.specs.Lent.{plots_of, overlay};
ghost use Rattle.numbering.specs.Seen.{bucket_of, look, found, Chained};

use factor::common_plots;
use limits::{Level, PLOTS};

// Class numbers: 1 to 240, and 0 for none.
const CLASS_NUMBERS: usize = PLOTS + 1;

// Buckets that labels are sorted into: equal parts of the numbers below 2^32.
const BUCKETS: usize = 512;

const RANGE: usize = 4294967296;

const BUCKET_SIZE: usize = RANGE / BUCKETS;

// 2^32 divided by the golden ratio. Its multiples, taken modulo 2^32, lie well apart: labels in even steps, short or long, hardly share a
// bucket.
const SPREAD: usize = 2654435769;

// The bucket of a label.
fn bucket(x: Level) -> usize
    ensures { result ≡ bucket_of x }
{
    x as usize * SPREAD % RANGE / BUCKET_SIZE
}

// The classes met: each has its label and the class before it in its bucket. Class 0, which no label has, ends a chain: a class number is a
// byte, as in the numbers that are handed out.
#[derive(Drop)]
struct Classes {
    labels: [Level; CLASS_NUMBERS],
    chain: [u8; CLASS_NUMBERS],
    // the latest class of each bucket
    last: [u8; BUCKETS],
    count: usize,
    ghost few: { count ≤ most_plots },
    ghost chained: { Chained labels chain last count },
}

impl Classes {
    // The class labelled `x`.
    fn look_up(&self, x: Level) -> Option<usize>
        ensures { result ≡ found (look self.now.labels self.now.chain self.now.last x) }
    {
        let mut c = self.last[bucket(x)] as usize;
        // Each class names the one before it in its bucket, so that there is no slice to go over.
        while c != 0 {
            if self.labels[c] == x {
                return Some(c);
            }
            c = self.chain[c] as usize;
        }
        None
    }

    // Enters the next class, labelled `x`.
    fn add(&mut self, x: Level) -> usize
        requires { self.old.count < most_plots }
        ensures number { result ≡ self.old.count + 1 }
        ensures count { self.new.count ≡ self.old.count + 1 }
        ensures labels { self.new.labels ≡ slice_set self.old.labels (self.old.count + 1) x }
        ensures chain { self.new.chain ≡ slice_set self.old.chain (self.old.count + 1) (slice_index self.old.last (bucket_of x)) }
        ensures last { self.new.last ≡ slice_set self.old.last (bucket_of x) (self.old.count + 1) }
    {
        let b = bucket(x);
        let c = self.count + 1;
        self.labels[c] = x;
        self.chain[c] = self.last[b];
        self.last[b] = c as u8;
        self.count = c;
        c
    }
}

// Numbers the first `stop` plots of a column of levels by first appearance, in one walk that also counts their classes; answers how many
// there are. C calls it through the crate numbering_c, so that numbering is compared and timed alone.
pub fn number_levels(levels: &[Level], stop: usize, out: &mut [u8; PLOTS]) -> usize
    ensures answer { result ≡ classes (take stop (plots_of levels.now)) }
    ensures numbers { out.new ≡ overlay out.old (number (take stop (plots_of levels.now))) }
{
    let n = common_plots(levels.len(), stop);
    let room: &mut [u8] = out;
    let mut classes = Classes {
        labels: [0; CLASS_NUMBERS],
        chain: [0; CLASS_NUMBERS],
        last: [0; BUCKETS],
        count: 0,
    };
    for (u, &x) in levels[..n].iter().enumerate() {
        let c = match classes.look_up(x) {
            Some(c) => c,
            None => classes.add(x),
        };
        room[u] = c as u8;
    }
    classes.count
}
