//! Laws of the definitions of this crate, each as the contract of a function that does nothing.

ghost use Rattle.us_flows.specs.Laws.{OneTurn, TurnsAreOfClusters, ActivityHasWords, FoundHasWords};

/// Two turns of the tables that have one number are one turn.
pub fn one_turn()
    ensures { OneTurn }
{}

/// Of the turns of a round just one has the number of a cluster's word, and none that of another word.
pub fn turns_are_of_clusters()
    ensures { TurnsAreOfClusters }
{}

/// The words of a flow's activity stand behind those of all flows before it, silent first.
pub fn activity_has_words()
    ensures { ActivityHasWords }
{}

/// What a SID asks for leads to words: that of the cluster which has it, or both of the flow which tells its activity.
pub fn found_has_words()
    ensures { FoundHasWords }
{}
