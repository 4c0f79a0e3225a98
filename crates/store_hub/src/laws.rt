//! Laws on the definitions, as contracts of functions that do nothing.
ghost use Rattle.store_hub.specs.Laws.{AnswersRead, FreshHaveEntered};

/// An answer is the store's at its mark, in what the pass has seen since.
pub fn answers_read()
    ensures { AnswersRead }
{}

/// A pass that is fresh has the one entry by which it was let in.
pub fn pass_laws()
    ensures fresh { FreshHaveEntered }
{}
