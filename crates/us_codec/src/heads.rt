ghost use Rattle.std.specs.Prelude.{◌≡◌, ◌≤◌, length};
ghost use Rattle.std.specs.List.{list_all};
ghost use Rattle.us_codec.specs.Faults.{is_backoff, head_at};

/// The bytes before the elements (the standard's).
pub const HEAD_BYTES: usize = 16;

/// The greatest backoff, as an exponent of 2 (the standard's).
const MAX_BACKOFF: u8 = 15;

/// What stands before the elements of a MAP body (the standard's), but for the Number of Elements and Reserved, which
/// follow of the elements.
#[derive(Clone, Copy, Debug, PartialEq, Eq, Hash)]
pub struct Head {
    /// Upstream Channel ID.
    pub channel: u8,
    /// UCD Count.
    pub ucd_count: u8,
    /// Alloc Start Time, in minislots.
    pub alloc_start: u32,
    /// Ack Time, in minislots.
    pub ack: u32,
    /// Ranging Backoff Start and End, Data Backoff Start and End, as exponents of 2. No MAP has one above 15.
    pub backoffs: [u8; 4],
}

impl Head {
    /// The head that the first sixteen bytes of a body spell.
    #[tactic(auto, unfolding(crate::specs::Faults::head_at))]
    pub(crate) fn of_bytes(body: &[u8]) -> Head
        requires { HEAD_BYTES ≤ length body.now }
        ensures { result ≡ head_at body.now }
    {
        Head {
            channel: body[0],
            ucd_count: body[1],
            alloc_start: u32::from_be_bytes([body[4], body[5], body[6], body[7]]),
            ack: u32::from_be_bytes([body[8], body[9], body[10], body[11]]),
            backoffs: [body[12], body[13], body[14], body[15]],
        }
    }

    /// Whether no backoff is above 15.
    pub(crate) fn has_lawful_backoffs(&self) -> bool
        ensures { result ≡ list_all is_backoff self.now.backoffs }
    {
        self.backoffs.iter().all(|backoff| *backoff <= MAX_BACKOFF)
    }
}
