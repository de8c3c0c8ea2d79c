// What a numbering call with the elimination after it answers.
use numbering_whole::shape::RunFigures;
use refusals::Refusal;
use store_elimination::Counts;

// The numbering's figures, beside the counts of the elimination or its refusal.
#[derive(Clone, Copy)]
pub struct RunElimination {
    pub figures: RunFigures,
    pub elimination: Result<Counts, Refusal>,
}
