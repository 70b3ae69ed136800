//! What a session does to an agent between its cycles keeps it lawful: more words, new identifiers, settings, and
//! productions that were read.
#![tactic(auto)]

ghost use Rattle.session_laws.specs.Steps as steps;

/// More words, a new identifier, other settings and a halt keep an agent lawful, and what the check
/// gives may be loaded, where its constants and the names of its variables are words and numbers.
pub fn sessions_keep()
    ensures words { steps.WordsKeep }
    ensures identifiers { steps.IdentifiersKeep }
    ensures settings { steps.SettingsKeep }
    ensures halts { steps.HaltsKeep }
    ensures loadable { steps.CheckedMayBeLoaded }
{}
