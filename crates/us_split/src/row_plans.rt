ghost use Rattle.std.specs.Prelude.{◌≡◌, ℕ, List, None, [], ◌∷◌, ◌++◌, ◌<◌, ◌≤◌, ◌+◌, ◌-◌, length, map, set, sum, option_map, slice_index, slice_index_or, OnOk};
ghost use Rattle.std.specs.Bool.{OnTrue};
ghost use Rattle.std.specs.List.{All, AllByRecursion};
ghost use Rattle.us_flows.specs.Tables.{segment_header_bytes};
ghost use Rattle.us_split.specs.Plans.{at_most, max_burst_bytes};
ghost use Rattle.us_split.specs.PartialPlans.{IsFull};
ghost use Rattle.us_split.specs.TurnRows as spec;
ghost use Rattle.us_split.specs.TurnRows.{AreFirsts, FitsRow, IsRowWithin, first_pass, last_pass, more_at, no_firsts, partial_of, pass_of, shares_at, with_first_row, with_firsts, with_row, with_rows, with_second_row, with_seconds};

use crate::by_places::{are_full, give_back_all, put_all, take_all};
use crate::channel_plans::ChannelPlan;
use crate::shares::Shares;
use crate::turn_rows::TurnRow;
use us_slots::NoMemory;

/// What the turn of the flow at this place asks for: no more than its bucket still allows.
fn demand_of(allowances: &[Option<u64>], flow: usize, outstanding: u64) -> u64
    requires { flow < length allowances.now }
    ensures { result ≡ at_most (slice_index_or allowances.now flow None) outstanding }
{
    match allowances[flow] {
        Some(most) => outstanding.min(most),
        None => outstanding,
    }
}

/// Takes so many bytes off what the bucket of the flow at this place allows.
fn spend(allowances: &mut [Option<u64>], flow: usize, bytes: u64)
    requires { flow < length allowances.old }
    ensures { allowances.new ≡ set allowances.old flow
        (option_map (λ most. most - bytes) (slice_index_or allowances.old flow None)) }
{
    if let Some(most) = allowances[flow] {
        allowances[flow] = Some(most.saturating_sub(bytes));
    }
}

/// What is reserved for the flow at this place, 0 where nothing is listed.
pub(crate) fn reserve_of(reserves: &[u64], flow: usize) -> u64
    ensures { result ≡ slice_index reserves.now flow }
{
    match reserves.get(flow) {
        Some(bytes) => *bytes,
        None => 0,
    }
}

/// What is reserved for a turn: nothing where its flow has no minimum rate.
fn reserve_for(row: &TurnRow, reserves: &[u64]) -> u64
    ensures { result ≡ spec.reserve_for row.now reserves.now }
{
    if row.has_min_rate() {
        reserve_of(reserves, row.flow())
    } else {
        0
    }
}

/// Takes so many bytes off what is reserved for the flow at this place.
fn spend_reserve(reserves: &mut [u64], flow: usize, bytes: u64)
    ensures { reserves.new ≡ set reserves.old flow (slice_index reserves.old flow - bytes) }
{
    if flow < reserves.len() {
        reserves[flow] = reserves[flow].saturating_sub(bytes);
    }
}

/// Whether something is reserved for the flow of one of these turns. Where no reserve is listed, no turn is looked at.
fn some_reserved(rows: &[TurnRow], askers: &[u16], reserves: &[u64]) -> bool
    requires askers { AllByRecursion (λ place. place < length rows.now) askers.now }
    ensures { result ≡ spec.some_reserved rows.now reserves.now askers.now }
{
    if reserves.is_empty() {
        return false;
    }
    for place in askers {
        let row = &rows[usize::from(*place)];
        if reserve_for(row, reserves) > 0 {
            return true;
        }
    }
    false
}

/// Whether none of these bytes is there and no channel carries one. Where there are some, no channel is looked at.
fn none_left(bytes: &Shares, channels: &[ChannelPlan]) -> bool
    ensures { OnTrue result ((sum bytes.now ≡ 0) × All IsFull channels.now) }
{
    bytes.total() == 0 && are_full(channels)
}

/// Divides so many bytes over the channels of a turn. The weights are written beside the shares, so that neither is moved.
#[inline(always)]
fn share_out(
    row: &TurnRow,
    bytes: u64,
    channels: &[ChannelPlan],
    weights: &mut Shares,
    shares: &mut Shares,
)
    requires inside { AllByRecursion (λ seat. seat.place < length channels.now) row.now.seats }
    requires header { row.now.asker.header ≤ segment_header_bytes }
    ensures value { shares.new ≡ shares_at row.now bytes channels.now }
    ensures bursts { (k : ℕ) → slice_index shares.new k + row.now.asker.header ≤ max_burst_bytes }
    ensures one_each { length shares.new ≡ length row.now.seats }
{
    weights.weigh(channels, row.seats(), row.header());
    shares.divide(bytes, weights);
}

/// Plans a turn of so many outstanding bytes. What its shares take is no longer there for the turns after it. Weights and
/// shares are written where those of the turn before stand.
fn plan_row(
    row: &TurnRow,
    outstanding: u64,
    channels: &mut [ChannelPlan],
    allowances: &mut [Option<u64>],
    weights: &mut Shares,
    shares: &mut Shares,
) -> Result<(), NoMemory>
    requires row { IsRowWithin (length allowances.old) (length channels.old) row.now }
    ensures plan { OnOk result (partial_of channels.new allowances.new ≡
        with_row row.now outstanding (partial_of channels.old allowances.old)) }
    ensures kept { map (λ c. c.channel) channels.new ≡ map (λ c. c.channel) channels.old }
    ensures flows { length allowances.new ≡ length allowances.old }
{
    let demand = demand_of(allowances, row.flow(), outstanding);
    if demand == 0 {
        return Ok(());
    }
    share_out(row, demand, channels, weights, shares);
    put_all(channels, row.asker(), row.seats(), shares.bytes())?;
    spend(allowances, row.flow(), shares.total());
    Ok(())
}

/// Plans the turns at these places, one after another, until no channel carries a byte. The channels are looked at where a
/// turn found none that carries one.
fn plan_rows(
    rows: &[TurnRow],
    channels: &mut [ChannelPlan],
    askers: &[u16],
    outstanding: &[u64],
    allowances: &mut [Option<u64>],
) -> Result<(), NoMemory>
    requires rows { AllByRecursion (IsRowWithin (length allowances.old) (length channels.old)) rows.now }
    requires clusters { AllByRecursion (λ row. row.asker.claimant.cluster < length outstanding.now) rows.now }
    requires askers { AllByRecursion (λ place. place < length rows.now) askers.now }
    ensures plan { OnOk result (partial_of channels.new allowances.new ≡
        with_rows rows.now outstanding.now askers.now (partial_of channels.old allowances.old)) }
    ensures kept { map (λ c. c.channel) channels.new ≡ map (λ c. c.channel) channels.old }
    ensures flows { length allowances.new ≡ length allowances.old }
{
    let mut weights = Shares::none(0);
    let mut shares = Shares::none(0);
    for place in askers {
        let row = &rows[usize::from(*place)];
        let bytes = outstanding[row.cluster()];
        plan_row(row, bytes, channels, allowances, &mut weights, &mut shares)?;
        if none_left(&weights, channels) {
            return Ok(());
        }
    }
    Ok(())
}

/// Plans the first shares of a turn of so many outstanding bytes: no more than is reserved for its flow. What they take is
/// no longer there for other turns.
fn plan_first(
    row: &TurnRow,
    outstanding: u64,
    channels: &mut [ChannelPlan],
    allowances: &mut [Option<u64>],
    reserves: &mut [u64],
) -> Shares
    requires row { IsRowWithin (length allowances.old) (length channels.old) row.now }
    ensures pass { (firsts : List (List ℕ)) →
        pass_of channels.new allowances.new reserves.new (firsts ++ result ∷ []) ≡
        with_first_row row.now outstanding (pass_of channels.old allowances.old reserves.old firsts) }
    ensures fits { FitsRow row.now result }
    ensures kept { map (λ c. c.channel) channels.new ≡ map (λ c. c.channel) channels.old }
    ensures flows { length allowances.new ≡ length allowances.old }
{
    let reserve = reserve_for(row, reserves);
    let demand = demand_of(allowances, row.flow(), outstanding).min(reserve);
    if demand == 0 || are_full(channels) {
        return row.no_shares();
    }
    let mut weights = Shares::none(0);
    let mut shares = Shares::none(0);
    share_out(row, demand, channels, &mut weights, &mut shares);
    let total = shares.total();
    take_all(channels, row.asker().header, row.seats(), shares.bytes());
    spend(allowances, row.flow(), total);
    spend_reserve(reserves, row.flow(), total);
    shares
}

/// Plans the first shares of the turns at these places, one after another, and notes them.
fn plan_firsts(
    rows: &[TurnRow],
    channels: &mut [ChannelPlan],
    askers: &[u16],
    outstanding: &[u64],
    allowances: &mut [Option<u64>],
    reserves: &mut [u64],
    firsts: &mut Vec<Shares>,
) -> Result<(), NoMemory>
    requires rows { AllByRecursion (IsRowWithin (length allowances.old) (length channels.old)) rows.now }
    requires clusters { AllByRecursion (λ row. row.asker.claimant.cluster < length outstanding.now) rows.now }
    requires askers { AllByRecursion (λ place. place < length rows.now) askers.now }
    ensures pass { OnOk result (pass_of channels.new allowances.new reserves.new firsts.new.items ≡
        with_firsts rows.now outstanding.now askers.now
        (no_firsts (partial_of channels.old allowances.old) reserves.old)) }
    ensures fit { OnOk result (AreFirsts rows.now askers.now firsts.new.items) }
    ensures one_each { OnOk result (length firsts.new.items ≡ length askers.now) }
    ensures kept { map (λ c. c.channel) channels.new ≡ map (λ c. c.channel) channels.old }
    ensures flows { length allowances.new ≡ length allowances.old }
{
    firsts.clear();
    for place in askers {
        let row = &rows[usize::from(*place)];
        let shares = plan_first(
            row,
            outstanding[row.cluster()],
            channels,
            allowances,
            reserves,
        );
        firsts.push(shares)?;
    }
    Ok(())
}

/// So many bytes, divided over what the channels of a turn carry beside its first shares.
fn more_of(row: &TurnRow, first: &Shares, bytes: u64, channels: &[ChannelPlan]) -> Shares
    requires inside { AllByRecursion (λ seat. seat.place < length channels.now) row.now.seats }
    requires header { row.now.asker.header ≤ segment_header_bytes }
    requires first { FitsRow row.now first.now }
    ensures value { result ≡ more_at row.now bytes first.now channels.now }
    ensures bursts { (k : ℕ) → slice_index first.now k + slice_index result k + row.now.asker.header ≤ max_burst_bytes }
    ensures one_each { length result ≡ length row.now.seats }
{
    let mut whole = Shares::none(0);
    whole.weigh(channels, row.seats(), row.header());
    let left = whole.beside(first);
    let mut more = Shares::none(0);
    more.divide(bytes, &left);
    more
}

/// Plans a turn of so many outstanding bytes beside its first shares, once its channels have their costs back. Where it has
/// none and no channel carries a byte, it gets none.
fn plan_second(
    row: &TurnRow,
    first: &Shares,
    outstanding: u64,
    channels: &mut [ChannelPlan],
    allowances: &mut [Option<u64>],
) -> Result<(), NoMemory>
    requires row { IsRowWithin (length allowances.old) (length channels.old) row.now }
    requires first { FitsRow row.now first.now }
    ensures plan { OnOk result (partial_of channels.new allowances.new ≡
        with_second_row row.now outstanding first.now (partial_of channels.old allowances.old)) }
    ensures kept { map (λ c. c.channel) channels.new ≡ map (λ c. c.channel) channels.old }
    ensures flows { length allowances.new ≡ length allowances.old }
{
    if none_left(first, channels) {
        return Ok(());
    }
    give_back_all(channels, row.asker().header, row.seats(), first.bytes());
    let left = outstanding.saturating_sub(first.total());
    let demand = demand_of(allowances, row.flow(), left);
    let more = more_of(row, first, demand, channels);
    let both = first.with(&more);
    put_all(channels, row.asker(), row.seats(), both.bytes())?;
    spend(allowances, row.flow(), more.total());
    Ok(())
}

/// Plans the turns at these places beside their first shares, one after another.
fn plan_seconds(
    rows: &[TurnRow],
    firsts: &[Shares],
    channels: &mut [ChannelPlan],
    askers: &[u16],
    outstanding: &[u64],
    allowances: &mut [Option<u64>],
) -> Result<(), NoMemory>
    requires rows { AllByRecursion (IsRowWithin (length allowances.old) (length channels.old)) rows.now }
    requires clusters { AllByRecursion (λ row. row.asker.claimant.cluster < length outstanding.now) rows.now }
    requires askers { AllByRecursion (λ place. place < length rows.now) askers.now }
    requires one_each { length firsts.now ≡ length askers.now }
    requires firsts { AreFirsts rows.now askers.now firsts.now }
    ensures plan { OnOk result (partial_of channels.new allowances.new ≡
        with_seconds rows.now outstanding.now askers.now firsts.now (partial_of channels.old allowances.old)) }
    ensures kept { map (λ c. c.channel) channels.new ≡ map (λ c. c.channel) channels.old }
    ensures flows { length allowances.new ≡ length allowances.old }
{
    for i in 0..askers.len() {
        let row = &rows[usize::from(askers[i])];
        plan_second(
            row,
            &firsts[i],
            outstanding[row.cluster()],
            channels,
            allowances,
        )?;
    }
    Ok(())
}

/// Plans the turns at these places in two passes, of which the first one is left out where nothing is reserved for their
/// flows. What it takes of reserves is taken off.
pub(crate) fn plan_passes(
    rows: &[TurnRow],
    channels: &mut [ChannelPlan],
    askers: &[u16],
    outstanding: &[u64],
    allowances: &mut [Option<u64>],
    reserves: &mut [u64],
    firsts: &mut Vec<Shares>,
) -> Result<(), NoMemory>
    requires rows { AllByRecursion (IsRowWithin (length allowances.old) (length channels.old)) rows.now }
    requires clusters { AllByRecursion (λ row. row.asker.claimant.cluster < length outstanding.now) rows.now }
    requires askers { AllByRecursion (λ place. place < length rows.now) askers.now }
    ensures plan { OnOk result (partial_of channels.new allowances.new ≡
        last_pass rows.now outstanding.now askers.now (partial_of channels.old allowances.old) reserves.old) }
    ensures reserves { OnOk result (reserves.new ≡
        (first_pass rows.now outstanding.now askers.now (partial_of channels.old allowances.old) reserves.old).reserves) }
    ensures kept { map (λ c. c.channel) channels.new ≡ map (λ c. c.channel) channels.old }
    ensures flows { length allowances.new ≡ length allowances.old }
{
    if !some_reserved(rows, askers, reserves) {
        plan_rows(rows, channels, askers, outstanding, allowances)?;
        return Ok(());
    }
    plan_firsts(
        rows,
        channels,
        askers,
        outstanding,
        allowances,
        reserves,
        firsts,
    )?;
    plan_seconds(rows, firsts, channels, askers, outstanding, allowances)?;
    Ok(())
}
