use us_flows::{Config, Place, TableName};

/// A table as a warning calls it: its place, and its id.
#[derive(Clone, Copy)]
pub(crate) struct TableId {
    pub(crate) place: Place,
    pub(crate) id: u16,
}

impl TableId {
    /// The table at an index of its list.
    pub(crate) fn new(table: TableName, index: usize, id: u16) -> TableId {
        let index = u32::try_from(index).unwrap_or(u32::MAX);
        TableId {
            place: Place { table, index },
            id,
        }
    }

    /// The flow with this id.
    pub(crate) fn of_flow(config: &Config, id: u16) -> TableId {
        for (index, flow) in config.flows().iter().enumerate() {
            if flow.id() == id {
                return TableId::new(TableName::Flow, index, id);
            }
        }
        TableId::new(TableName::Flow, 0, id)
    }

    /// The station with this id.
    pub(crate) fn of_station(config: &Config, id: u16) -> TableId {
        for (index, station) in config.stations().iter().enumerate() {
            if station.id == id {
                return TableId::new(TableName::Station, index, id);
            }
        }
        TableId::new(TableName::Station, 0, id)
    }
}
