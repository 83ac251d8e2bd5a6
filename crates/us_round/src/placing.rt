ghost use Rattle.std.specs.Prelude.{◌≡◌, ⊤, IfOk, map};
ghost use Rattle.us_crew.specs.Values.{values_of};
ghost use Rattle.us_round.specs.Hands.{CanBuild, built_at};
ghost use Rattle.us_round.specs.Placing.{AreLaden, CanPlace, placed};

use crate::hands::Building;
use std::alloc::Global;
use us_crew::Work;
use us_output::ChannelWithText;
use us_slots::NoMemory;
use us_split::Claim;

/// A channel, and a list of the claims that are to be placed on it.
pub type Laden = (ChannelWithText, Vec<Claim>);

/// Places on a channel the claims that come with it. The planner, which has the claims, doesn't live as long as the
/// workers. The list comes back, for another round.
#[derive(Clone, Copy)]
pub struct Placing {
    /// The round of which is written ahead what of the texts needs this channel alone, if any is.
    pub text_of: Option<u32>,
}

impl Work<Laden, Laden, NoMemory> for Placing {
    ghost accepts = { λ _ _ item. CanPlace item.0 item.1.items };

    ghost value = { λ _ _ item. (placed item.0 item.1.items, item.1) };

    ghost may_fail = { λ _ _ _ _. ⊤ };

    ghost must_fail = { λ _ _ _. ⊥ };

    fn run(&self, _alloc: Global, _index: usize, item: Laden) -> Result<Laden, NoMemory> {
        let (mut channel, claims) = item;
        channel.place_claims(&claims);
        if let Some(round) = self.text_of {
            channel.write_ahead(round)?;
        }
        Ok((channel, claims))
    }
}

/// The channels, each with a copy of its claims, in a list that was kept, or a new one. Where a channel may be built, these
/// may be placed on it.
pub(crate) fn laden(
    alloc: Global,
    work: &Building<'_>,
    channels: Vec<ChannelWithText>,
    lists: &mut Vec<Vec<Claim>>,
) -> Result<Vec<Laden>, NoMemory>
    ensures ready { IfOk result (λ all.
        AreLaden (CanBuild work.now) (λ item. CanPlace item.0 item.1.items) channels.items all.items) }
    ensures value { IfOk result (λ all.
        values_of (λ _ item. placed item.0 item.1.items) all.items ≡ values_of (built_at work.now) channels.items) }
{
    let mut all = Vec::with_capacity(alloc, channels.len())?;
    let mut rest = channels.into_iter();
    while let Some(channel) = rest.next() {
        let claims = copied(one_of(alloc, lists), work.claims(all.len()))?;
        all.push_reserved((channel, claims));
    }
    Ok(all)
}

/// One of the lists that were kept, or a new one.
fn one_of(alloc: Global, lists: &mut Vec<Vec<Claim>>) -> Vec<Claim> {
    match lists.pop() {
        Some(list) => list,
        None => Vec::new(alloc),
    }
}

/// A list with a copy of these claims, and nothing else.
fn copied(mut list: Vec<Claim>, claims: &[Claim]) -> Result<Vec<Claim>, NoMemory>
    ensures { IfOk result (λ copy. copy.items ≡ claims.now) }
{
    list.clear();
    list.extend_from_slice(claims)?;
    Ok(list)
}

/// The channels that came back, whose lists are kept for another round.
pub(crate) fn unladen(
    alloc: Global,
    all: Vec<Laden>,
    lists: &mut Vec<Vec<Claim>>,
) -> Result<Vec<ChannelWithText>, NoMemory>
    ensures { IfOk result (λ channels. channels.items ≡ map (λ item. item.0) all.items) }
{
    let mut channels = Vec::with_capacity(alloc, all.len())?;
    let mut rest = all.into_iter();
    while let Some((channel, claims)) = rest.next() {
        lists.push(claims)?;
        channels.push_reserved(channel);
    }
    Ok(channels)
}
