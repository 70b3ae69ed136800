//! What a session reads and carries out keeps its agent lawful: productions that were read may be
//! loaded, orders give symbols that there are, and commands leave the session lawful.
#![tactic(auto)]

ghost use Rattle.loading_laws.specs.Labels as labels;
ghost use Rattle.loading_laws.specs.Literals as literals;
ghost use Rattle.loading_laws.specs.Orders as orders;
ghost use Rattle.loading_laws.specs.Sessions as sessions;

/// The constants and the names of the variables of a production that was read are words of the table
/// and numbers, and what the check gives of it may be loaded. Each command is read so: its words join
/// the table, and its order is lawful.
pub fn what_is_read_may_be_loaded()
    ensures read { literals.ReadIsOfWords }
    ensures checked { literals.CheckedMayBeLoaded }
    ensures whole { orders.WholeReadsLawfully }
    ensures present { orders.PresentReadsLawfully }
{}

/// Operands that name no unknown identifier stand for symbols that were given, labels that are used
/// for the first time too; and making labels keeps an agent lawful.
pub fn operands_are_given()
    ensures stay { labels.LabelsStayGiven }
    ensures labels { labels.ResolvingKeepsLabels }
    ensures grow { labels.ResolvingGrows }
    ensures operands { labels.OperandsAreGiven }
    ensures spelled { labels.SpelledAreGiven }
    ensures elements { labels.ElementsAreGiven }
    ensures agents { labels.ResolvingKeepsAgents }
    ensures spelling { labels.SpellingKeepsAgents }
{}

/// The first session is lawful, and each command leaves a lawful session so, whether it does
/// something or is refused.
pub fn sessions_stay_lawful()
    ensures first { sessions.FirstSessionIsLawful }
    ensures runs { sessions.WholeRunsLawfully }
    ensures orders { sessions.OrdersLeaveLawful }
    ensures commands { sessions.CommandsLeaveLawful }
    ensures whole { sessions.WholeCommandsLeaveLawful }
{}
