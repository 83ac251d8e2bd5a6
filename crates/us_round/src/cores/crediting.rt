ghost use Rattle.std.specs.List.{AllByRecursion};
ghost use Rattle.us_channel.specs.Channels.{IsBuilt};
ghost use Rattle.us_round.specs.Cores.{AreCredited};
ghost use Rattle.us_round.specs.Rounds.{all_grants};
ghost use Rattle.us_round.specs.States.{Covers};

use crate::buckets::Buckets;
use us_channel::PlacedClaim;
use us_output::ChannelWithText;
use us_split::Askers;

/// Takes the credits of all channels' grants from the outstanding bytes of their clusters, and from the buckets of
/// their flows.
pub(super) fn credit_all(askers: &mut Askers, buckets: &mut Buckets, built: &[ChannelWithText])
    requires { Covers askers.old.left buckets.old.levels (all_grants built.now) }
    ensures credited { AreCredited (all_grants built.now) askers.old askers.new buckets.old buckets.new }
    ensures known { AllByRecursion IsBuilt built.now }
{
    for channel in built {
        credit_grants(askers, buckets, channel.channel_round().grants());
    }
}

/// The same of the grants of one channel.
fn credit_grants(askers: &mut Askers, buckets: &mut Buckets, grants: &[PlacedClaim])
    requires { Covers askers.old.left buckets.old.levels grants.now }
    ensures { AreCredited grants.now askers.old askers.new buckets.old buckets.new }
{
    for grant in grants {
        let credit = u64::from(grant.credit());
        askers.credit(grant.cluster(), credit);
        buckets.spend(grant.place(), credit);
    }
}
