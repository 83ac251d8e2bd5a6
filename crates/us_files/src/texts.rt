/// A maps file and a report, in memory.
#[derive(Drop)]
pub struct Texts {
    /// The maps file.
    pub maps: Vec<u8>,
    /// The report.
    pub report: Vec<u8>,
}
