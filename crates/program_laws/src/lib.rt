//! What learning does to the rules of an agent: which join, that they can be matched, and that all that is told of
//! them is known.
#![tactic(auto)]

ghost use Rattle.program_laws.specs.Knowing as knowing;
ghost use Rattle.program_laws.specs.Matching as matching;
ghost use Rattle.program_laws.specs.Taught as taught;

/// What a wave learns joins its rules, each under the next number and with its explanation; and what
/// its firings used was made before it.
pub fn rules_join()
    ensures teaches { taught.LearningTeaches }
    ensures makers { taught.MakersAreBefore }
{}

/// Each rule that a lawful wave learns can be matched with its conditions as they stand.
pub fn learned_rules_match()
    ensures matched { matching.LearnedCanBeMatched }
{}

/// All that is told of a wave, of its rules and of their explanations is in the table of words, also after it
/// has learned.
pub fn learning_is_known()
    ensures known { knowing.LearningIsKnown }
{}
