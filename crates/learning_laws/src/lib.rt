//! What a learned rule comes to: where it is learned, the check gives it back, it matches at its
//! grounds and makes the results again, and its explanation goes through again.
#![tactic(auto)]

ghost use Rattle.learning_laws.specs.Laws as laws;
ghost use Rattle.learning_laws.specs.LawfulSteps as steps;
ghost use Rattle.learning_laws.specs.LawfulWaves as lawful_waves;
ghost use Rattle.learning_laws.specs.LearningSteps as learning_steps;
ghost use Rattle.learning_laws.specs.BeforeWave as moment;
ghost use Rattle.learning_laws.specs.Ready as ready;
ghost use Rattle.learning_laws.specs.Waves as waves;
ghost use Rattle.learning_laws.specs.Worked as worked;

/// A chunk is given back by the check, has its instance at its grounds, and makes the results; and
/// its explanation goes through again.
pub fn chunks_go_again()
    ensures checked { laws.ChunksAreChecked }
    ensures matches { laws.ChunksMatch }
    ensures grounds { laws.GroundsAreMatched }
    ensures results { laws.ChunksMakeResults }
    ensures replays { laws.ChainsReplay }
    ensures negations { laws.NegationsAreConditions }
{}

/// An explanation that is found in a lawful history is lawful, and a firing of an instance is
/// recorded lawfully.
pub fn explanations_are_lawful()
    ensures explanations { laws.ExplanationsAreLawful }
    ensures firings { waves.FiringsAreLawful }
    ensures made { moment.MadeCanBeMade }
    ensures uses { waves.UsesAreLawful }
    ensures explained_firings { learning_steps.ExplainedAreLawful }
    ensures checked { ready.CheckedNegationsReady }
    ensures justified { ready.JustificationsStand }
    ensures stand { ready.FiringsStand }
{}

/// Each chunk that a wave learns from a lawful explanation goes again, and the firings of learned
/// rules are recorded lawfully.
pub fn chunks_are_learned()
    ensures learned { learning_steps.ChunksAreLearned }
    ensures chunks { learning_steps.ChunkFiringsAreLawful }
    ensures justifications { learning_steps.JustificationFiringsAreLawful }
    ensures names { learning_steps.NamesJoin }
{}

/// The first state of an agent is lawful, and each step keeps that, so do waves, phases and whole
/// runs, whether they learn or do without. A lawful agent gives what is asked of a moment and a
/// history, and each chunk that a lawful wave of it learns goes again.
pub fn agents_stay_lawful()
    ensures settled { steps.LawfulAgentsAreSettled }
    ensures records { steps.LawfulAgentsHaveRecords }
    ensures first { steps.FirstIsLawful }
    ensures anew { steps.StartingAnewKeeps }
    ensures settling { steps.SettlingKeeps }
    ensures input { steps.InputKeeps }
    ensures output { steps.OutputKeeps }
    ensures inputs { steps.InputsKeep }
    ensures queues { steps.QueuesKeep }
    ensures decision { steps.DecisionKeeps }
    ensures rules { steps.RulesKeep }
    ensures begin { lawful_waves.WavesBegin }
    ensures firing { lawful_waves.FiringsKeep }
    ensures firings { lawful_waves.AllFiringsKeep }
    ensures work { lawful_waves.WorkKeeps }
    ensures learning_steps { lawful_waves.WavesGiveLearningSteps }
    ensures chunks { lawful_waves.ChunksOfWavesGoAgain }
    ensures names { lawful_waves.NamesKeep }
    ensures without { lawful_waves.StepsWithoutRuleKeep }
    ensures teaching { lawful_waves.LearningStepsKeep }
    ensures learning { lawful_waves.LearningKeeps }
    ensures doing_without { lawful_waves.DoingWithoutKeeps }
    ensures waves { lawful_waves.WavesKeep }
    ensures phases { lawful_waves.PhasesKeep }
    ensures runs { lawful_waves.RunsKeep }
{}

/// A small explanation that was worked out by hand is lawful, and a chunk is learned from it.
pub fn worked_explanation()
    ensures { worked.IsLearned }
{}
