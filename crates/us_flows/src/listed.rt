//! Tables in their order, found by id.

// The upstream channels.
mod channels;

// The service flows, and what their SIDs ask for.
mod flows;

// The stations.
mod stations;

pub(crate) use channels::Channels;
pub(crate) use flows::Flows;
pub(crate) use stations::Stations;
