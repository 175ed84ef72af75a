// What is proved of the definitions themselves.
ghost use Rattle.exec2_run.specs.Cases.{FindsFirst, RunsAreSteps, StepsAreRuns};
ghost use Rattle.exec2_run.specs.Relation.{MovedAreSteps, StepsAreMoved};

/// A search for a label finds the first line with it from a place on, or none exactly where no line has it.
pub fn label_laws()
    ensures { FindsFirst }
{}

/// The statements as a relation, one case for each kind, and the function that computes their steps say the same.
pub fn statement_laws()
    ensures no_more { RunsAreSteps }
    ensures no_less { StepsAreRuns }
{}

/// The calls of a procedure as a relation by cases, finding the next line, a turn and the answers, and the function that computes them
/// say the same.
pub fn call_laws()
    ensures no_more { StepsAreMoved }
    ensures no_less { MovedAreSteps }
{}
