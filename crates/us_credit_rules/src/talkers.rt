ghost use Rattle.std.specs.Prelude.{◌≡◌, ◌==◌, ◌++◌, ◌∷◌, [], ℕ, None, List, map, slice_index_or, IfOk};
ghost use Rattle.std.specs.List.{list_any};
ghost use Rattle.std.specs.Option.{is_some};
ghost use Rattle.us_flows.specs.Tables.{Tables};
ghost use Rattle.us_requests.specs.Traces.{TraceAsks};
ghost use Rattle.us_output.specs.declared.rows.FinalActivity.{FinalActivity};
ghost use Rattle.us_lawful.specs.Finals.{talking};
ghost use Rattle.us_credit_rules.specs.Activities as spec;

use crate::seats::{place_at, put};
use crate::told::Tellings;
use std::alloc::{AllocError, Global};
use us_activity::Activities;
use us_flows::{Channel, Config};
use us_round::FinalActivity;

/// A flow that tells its activity.
#[derive(Clone, Copy)]
pub(crate) struct Talker {
    /// Its id.
    id: u16,
    /// The number of the word that marks it as silent. The next marks it as active.
    word: u16,
}

impl Talker {
    /// Its id.
    pub(crate) fn id(&self) -> u16
        ensures { result ≡ self.now.id }
    {
        self.id
    }
}

/// What A lines tell of the flows that tell their activity.
#[derive(Drop)]
pub(crate) struct Talkers {
    /// In table order.
    pub(crate) all: Vec<Talker>,
    /// By ids, whether a flow is one of them.
    ids: Vec<Option<u16>>,
    /// By ids, what is told of it.
    pub(crate) told: Tellings<FinalActivity>,
}

impl Talkers {
    /// Before all lines.
    pub(crate) fn new(alloc: Global, config: &Config) -> Result<Talkers, AllocError>
        ensures { IfOk result (λ none. (v : TraceAsks) → spec.AreTalkers config.now v [] none) }
    {
        let all = talkers_of(alloc, config)?;
        let ids = ids_of(alloc, &all)?;
        let told = Tellings::new(alloc, ids.len())?;
        Ok(Talkers { all, ids, told })
    }

    /// A line more.
    #[inline(never)]
    pub(crate) fn take(&mut self, channels: &[Channel], rounds: u32, line: FinalActivity)
        ensures { (t : Tables) (v : TraceAsks) (lines : List FinalActivity) → channels.now ≡ t.channels →
            rounds ≡ v.rounds → spec.AreTalkers t v lines self.old → spec.AreTalkers t v (lines ++ line ∷ []) self.new }
    {
        let known = place_at(&self.ids, line.flow).is_some();
        let talker = if known {
            Some(line.flow as usize)
        } else {
            None
        };
        self.told.take(channels, rounds, line.flow, talker, line);
    }
}

/// By ids, whether one of these flows has that.
fn ids_of(alloc: Global, talkers: &[Talker]) -> Result<Vec<Option<u16>>, AllocError>
    ensures { IfOk result (λ ids. (id : ℕ) →
        is_some (slice_index_or ids.items id None) ≡ list_any (λ talker. talker.id == id) talkers.now) }
{
    let mut ids = Vec::new(alloc);
    for talker in talkers {
        put(&mut ids, u32::from(talker.id), talker.id)?;
    }
    Ok(ids)
}

/// The A line of a flow behind so many rounds.
pub(crate) fn line_of(activities: &Activities, rounds: u32, talker: &Talker) -> FinalActivity
    ensures { result ≡ spec.line_of activities.now rounds talker.now }
{
    let active = activities.is_active(talker.word, u128::from(rounds));
    FinalActivity {
        flow: u64::from(talker.id),
        active: u64::from(active),
    }
}

/// The flows that tell their activity, in table order.
fn talkers_of(alloc: Global, config: &Config) -> Result<Vec<Talker>, AllocError>
    ensures { IfOk result (λ talkers. talkers.items ≡ map spec.talker_of (talking config.now)) }
{
    let mut talkers = Vec::new(alloc);
    let mut word = 0;
    for flow in config.flows() {
        if flow.kind().tells_activity() {
            talkers.push(Talker {
                id: flow.id(),
                word,
            })?;
        }
        word += flow.words() as u16;
    }
    Ok(talkers)
}
