ghost use Rattle.std.specs.Prelude.{◌≡◌, ◌^◌, ◌<◌, ◌≤◌, ◌⊎◌, ◌↔◌, ℕ, true, false, List, length, map, Err, None, IsSome, IfOk, OnOk, IfErr};
ghost use Rattle.us_flows.specs.Tables as tables;
ghost use Rattle.us_flows.specs.Clusters.{words_of};
ghost use Rattle.us_intake.specs.Seats.{first_seat};
ghost use Rattle.us_live.specs.Lives.{Feeds, IsNext, first_live};
ghost use Rattle.us_live.specs.Leaves.{Leaves};
ghost use Rattle.us_live.specs.declared.faults.LiveFault.TheVariants as fault;

use crate::faults::LiveFault;
use crate::rounds::make_round;
use std::alloc::Global;
use std::marker::Model;
use std::sync::Wait;
use std::thread::Threads;
use us_crew::{Gate, MAX_WORKERS};
use us_flows::Config;
use us_intake::{Intake, IntakeFault, Seat};
use us_round::{RoundOut, State};

/// A scheduler of so many rounds. Threads submit requests to an intake meanwhile, and each round cuts it.
#[derive(Drop)]
pub struct Live {
    clusters: usize,
    rounds: u32,
    log: Vec<Vec<u64>>,
    // What the next round starts from. A round in which memory is wanting gives it up.
    state: Option<State>,
}

impl Model for Live {
    ghost use Rattle.std.specs.Prelude.{map};
    ghost use Rattle.us_live.specs.Lives.{Live};

    ghost Value = { Live };

    ghost use Rattle.us_live.specs.Insides.{live_at, IsInside};

    ghost view = { λ l. live_at l.clusters l.rounds (map (λ cut. cut.items) l.log.items) l.state };

    ghost invariant = { λ l. IsInside l.clusters l.rounds (map (λ cut. cut.items) l.log.items) l.state };
}

impl Live {
    /// Opens a scheduler of `rounds` rounds, and an intake with the words of the configuration, in which seats submit at
    /// most `quota` bytes in all; with the intake's first seat, which has them all and takes. LV1: the rounds don't fit
    /// into a run; LV2: there is no word, since no flow makes requests or tells its activity; LV3: the quota is 0, or
    /// 2^62 or more; LV7: want of memory. The first of these is answered, and the configuration is given up then.
    ///
    /// A flow that tells its activity is marked as silent by a byte, or more, that is submitted to its first word
    /// (`Found::Activity` of `us_flows`), and as active by one to the next word. A mark counts against the quota, and asks
    /// for nothing.
    pub fn open(
        alloc: Global,
        config: Config,
        rounds: u32,
        quota: u64,
    ) -> Result<(Live, Intake, Seat), LiveFault>
        ensures rounds { (result ≡ Err fault.Rounds) ↔ (tables.rounds_fit config rounds ≡ false) }
        ensures no_cluster { (result ≡ Err fault.NoCluster) ↔
            ((tables.rounds_fit config rounds ≡ true) × (length (words_of config) ≡ 0)) }
        ensures quota { (result ≡ Err fault.Quota) ↔ ((tables.rounds_fit config rounds ≡ true)
            × (1 ≤ length (words_of config)) × ((quota ≡ 0) ⊎ (2 ^ 62 ≤ quota))) }
        ensures faults { IfErr result (λ given. (given ≡ fault.Rounds) ⊎ ((given ≡ fault.NoCluster)
            ⊎ ((given ≡ fault.Quota) ⊎ (given ≡ fault.NoMemory)))) }
        ensures live { IfOk result (λ opened. opened.0 ≡ first_live config rounds) }
        ensures intake { IfOk result (λ opened. (opened.1.clusters ≡ length (words_of config))
            × (opened.1.quota ≡ quota)) }
        ensures some { IfOk result (λ opened. 1 ≤ opened.1.clusters) }
        ensures seat { IfOk result (λ opened. opened.2 ≡ first_seat opened.1) }
        ensures feeds { IfOk result (λ opened. Feeds opened.0 opened.1 opened.2) }
    {
        let clusters = config.clusters();
        if !config.rounds_fit(rounds) {
            return Err(LiveFault::Rounds);
        }
        if clusters == 0 {
            return Err(LiveFault::NoCluster);
        }
        let (intake, seat) = match Intake::open(alloc, clusters as u16, quota) {
            Ok(opened) => opened,
            Err(IntakeFault::BadQuota) => return Err(LiveFault::Quota),
            Err(_) => return Err(LiveFault::NoMemory),
        };
        let Ok(state) = State::new(alloc, config) else {
            return Err(LiveFault::NoMemory);
        };
        let live = Live {
            clusters,
            rounds,
            log: Vec::new(alloc),
            state: Some(state),
        };
        Ok((live, intake, seat))
    }

    /// Cuts the intake, and schedules the next round of what was found. Its channels are shared among so many workers,
    /// each of which enters the gate before each channel. How many there are, and which comes when, changes nothing of
    /// the answer.
    ///
    /// The workers are those of `round` of `us_round`: a crew for this call alone, of no more than there are channels. It
    /// starts a thread for each but one, and ends them with the round: some tens of microseconds a thread. So one worker
    /// is the fastest, unless the channels have more to do than that. With several this call waits for them,
    /// as long as the gate holds them.
    ///
    /// LV4: memory was wanting in an earlier round; LV5: all rounds were answered; LV6: the workers are 0 or over 64;
    /// LV7: want of memory. The first of these is answered. After LV4 to LV6 everything is as it was, and the intake
    /// isn't cut. LV7 is the last answer but LV4: the log is what it was, and the seat has taken what the round had
    /// cut, if it came so far.
    pub fn next_round<H: Threads + Wait + Sync, G: Gate + Sync>(
        &mut self,
        threads: &H,
        alloc: Global,
        intake: &Intake,
        seat: &mut Seat,
        workers: usize,
        gate: &G,
    ) -> Result<RoundOut, LiveFault>
        requires { Feeds self.old intake.now seat.old }
        ensures next { IfOk result (λ out. (cut : List ℕ) × IsNext self.old self.new seat.old seat.new cut out) }
        ensures feeds { Feeds self.new intake.now seat.new }
        ensures failed { (result ≡ Err fault.Failed) ↔ (self.old.tables ≡ None) }
        ensures done { (result ≡ Err fault.Done) ↔
            (IsSome self.old.tables × (self.old.rounds ≤ length self.old.log)) }
        ensures workers { (result ≡ Err fault.Workers) ↔ (IsSome self.old.tables
            × (length self.old.log < self.old.rounds) × ((workers ≡ 0) ⊎ (64 < workers))) }
        ensures leaves { IfErr result (λ given. Leaves self.old self.new seat.old seat.new given) }
    {
        self.check(workers)?;
        // Where memory is wanting from here on, there is no state any more, and every later call says so.
        let Some(state) = self.state.take() else {
            return Err(LiveFault::Failed);
        };
        let (state, out) = make_round(
            threads,
            alloc,
            state,
            &mut self.log,
            self.clusters,
            intake,
            seat,
            workers,
            gate,
        )?;
        self.state = Some(state);
        Ok(out)
    }

    /// Looks for LV4, LV5 and LV6.
    fn check(&self, workers: usize) -> Result<(), LiveFault>
        ensures failed { (result ≡ Err fault.Failed) ↔ (self.now.tables ≡ None) }
        ensures done { (result ≡ Err fault.Done) ↔
            (IsSome self.now.tables × (self.now.rounds ≤ length self.now.log)) }
        ensures workers { (result ≡ Err fault.Workers) ↔ (IsSome self.now.tables
            × (length self.now.log < self.now.rounds) × ((workers ≡ 0) ⊎ (64 < workers))) }
        ensures faults { IfErr result (λ given. (given ≡ fault.Failed) ⊎ ((given ≡ fault.Done)
            ⊎ (given ≡ fault.Workers))) }
        ensures fine { OnOk result ((length self.now.log < self.now.rounds) × (1 ≤ workers) × (workers ≤ 64)) }
    {
        if self.state.is_none() {
            return Err(LiveFault::Failed);
        }
        if self.log.len() >= self.rounds as usize {
            return Err(LiveFault::Done);
        }
        if workers == 0 || workers > MAX_WORKERS {
            return Err(LiveFault::Workers);
        }
        Ok(())
    }

    /// The cuts of the rounds so far: of each the bytes of each word, in the order of the words' numbers. It needs no
    /// memory.
    pub fn cut_log(&self) -> &[Vec<u64>]
        ensures { map (λ cut. cut.items) result.now ≡ self.now.log }
    {
        &self.log
    }
}
