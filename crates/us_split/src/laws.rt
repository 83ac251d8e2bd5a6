//! Laws of plans, of their claims and of those who ask, each as the contract of a function that does nothing.

ghost use Rattle.us_split.specs.Asking.{AskersClaim, TurnsPass};
ghost use Rattle.us_split.specs.Requested.{CutsAreOfClusters};
ghost use Rattle.us_split.specs.Laws.{ClaimsAreOfTurns, ClustersClaimOnce, FullGiveNothing, OnePassDoes};

/// Each claim of a plan is of a turn of the tables: of its cluster, with its header, and with the cluster's SID on the
/// channel.
pub fn claims_are_of_turns()
    ensures { ClaimsAreOfTurns }
{}

/// On a channel no cluster has two claims.
pub fn clusters_claim_once()
    ensures { ClustersClaimOnce }
{}

/// The claims of a plan are those of the turns that ask, whatever is said to be allowed of the flows of others.
pub fn askers_claim()
    ensures { AskersClaim }
{}

/// The turns at the places of those that pass are the turns that pass.
pub fn turns_pass()
    ensures { TurnsPass }
{}

/// A cut adds to what is outstanding of each cluster's word, and leaves that of words of activity as it is, where both lists
/// have a number for the word.
pub fn cuts_are_of_clusters()
    ensures { CutsAreOfClusters }
{}

/// Where all reserves that are listed are 0, a plan is made in one pass.
pub fn one_pass_does()
    ensures { OnePassDoes }
{}

/// Where no channel carries a byte, no turn gets one, in a second pass none that has no first shares.
pub fn full_give_nothing()
    ensures { FullGiveNothing }
{}
