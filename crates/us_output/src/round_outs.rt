ghost use Rattle.std.specs.Prelude.{◌≡◌};
ghost use Rattle.us_output.specs.Outputs as spec;

use crate::rows::Row;
use std::marker::Model;
use us_codec::Map;

/// What a round gives: the MAP of each channel, and its lines.
#[derive(Drop)]
pub struct RoundOut {
    round: u32,
    maps: Vec<Map>,
    rows: Vec<Row>,
}

impl Model for RoundOut {
    ghost Value = { spec.RoundOut };

    ghost view = { λ out. record { round = out.round; maps = out.maps.items; rows = out.rows.items } };
}

impl RoundOut {
    /// What a round gives of these MAPs and lines.
    pub(crate) fn new(round: u32, maps: Vec<Map>, rows: Vec<Row>) -> RoundOut
        ensures { result ≡ record { round = round; maps = maps.items; rows = rows.items } }
    {
        RoundOut { round, maps, rows }
    }

    /// The number of the round.
    pub fn round(&self) -> u32
        ensures { result ≡ self.now.round }
    {
        self.round
    }

    /// The MAP of each channel, in table order.
    pub fn maps(&self) -> &[Map]
        ensures { result.now ≡ self.now.maps }
    {
        &self.maps
    }

    /// The lines: channels in table order, and on each those of grants by their start, then those of what was missed.
    pub fn rows(&self) -> &[Row]
        ensures { result.now ≡ self.now.rows }
    {
        &self.rows
    }

    /// The MAP of each channel, and the lines, to whoever owns what the round gave.
    pub fn into_parts(self) -> (Vec<Map>, Vec<Row>)
        ensures maps { result.0.items ≡ self.maps }
        ensures rows { result.1.items ≡ self.rows }
    {
        let RoundOut {
            round: _,
            maps,
            rows,
        } = self;
        (maps, rows)
    }
}
