// What a call or a sheet is refused for: the rules' questions, one case each, and their numbers.
#![tactic(auto)]

ghost use Rattle.std.specs.Prelude.{◌≡◌};
ghost use Rattle.refusal.specs.Numbers.{number_of};

// The first question whose answer is no, named for what is at fault.
#[derive(Clone, Copy, Debug, PartialEq, Eq)]
pub enum Refusal {
    LevelTable,
    TextLength,
    FirstLine,
    LaterLine,
    PlotCount,
    Limits,
    MissingLevel,
    PlotFamilySize,
    ClassSizes,
    PlotPair,
    TreatmentFamilySize,
    TreatmentPair,
    CrossedPair,
    FinalFamilySize,
    Family,
    Stratum,
    Formula,
    FormulaLimits,
    Parent,
}

impl Refusal {
    // The number of the question.
    pub fn number(self) -> u32
        ensures { result ≡ number_of self }
    {
        match self {
            Refusal::LevelTable => 1,
            Refusal::TextLength => 2,
            Refusal::FirstLine => 3,
            Refusal::LaterLine => 4,
            Refusal::PlotCount => 5,
            Refusal::Limits => 6,
            Refusal::MissingLevel => 7,
            Refusal::PlotFamilySize => 8,
            Refusal::ClassSizes => 9,
            Refusal::PlotPair => 10,
            Refusal::TreatmentFamilySize => 11,
            Refusal::TreatmentPair => 12,
            Refusal::CrossedPair => 13,
            Refusal::FinalFamilySize => 14,
            Refusal::Family => 15,
            Refusal::Stratum => 16,
            Refusal::Formula => 17,
            Refusal::FormulaLimits => 18,
            Refusal::Parent => 23,
        }
    }
}
