ghost use Rattle.std.specs.Prelude.{◌≡◌, SomeIff};
ghost use Rattle.us_slots.specs.Bursts.{BurstProfile, IsBurstProfile};

use std::marker::Model;

/// Bits per symbol of QPSK, the least modulation that is scheduled (ours).
const MIN_BITS: u8 = 2;

/// Bits per symbol of 64QAM, the greatest modulation that is scheduled (ours).
const MAX_BITS: u8 = 6;

/// The longest preamble, in symbols (ours).
const MAX_PREAMBLE: u16 = 1_024;

/// The longest guard time, in symbols (ours).
const MAX_GUARD: u16 = 255;

/// The most wrong bytes that a codeword corrects (ours).
const MAX_FEC_T: u8 = 16;

/// The fewest data bytes of a full codeword (ours).
const MIN_FEC_K: u8 = 16;

/// The most data bytes of a full codeword (ours).
const MAX_FEC_K: u8 = 253;

/// The longest codeword with its parity, in bytes (ours): a Reed-Solomon code over bytes has no longer one.
const MAX_CODEWORD: u16 = 255;

/// A burst profile: modulation, preamble, guard time and code of one kind of burst.
#[derive(Clone, Copy, Debug, PartialEq, Eq, Hash)]
pub struct Profile {
    bits: u8,
    preamble: u16,
    guard: u16,
    fec_t: u8,
    fec_k: u8,
    shortened: bool,
}

impl Model for Profile {
    ghost Value = { BurstProfile };

    ghost view = { λ p. record {
      bits = p.bits;
      preamble = p.preamble;
      guard = p.guard;
      fec_t = p.fec_t;
      fec_k = p.fec_k;
      shortened = p.shortened;
    } };

    ghost invariant = { λ p. IsBurstProfile (record {
      bits = p.bits;
      preamble = p.preamble;
      guard = p.guard;
      fec_t = p.fec_t;
      fec_k = p.fec_k;
      shortened = p.shortened;
    }) };

    ghost inverse = { λ p. record {
      bits = p.bits;
      preamble = p.preamble;
      guard = p.guard;
      fec_t = p.fec_t;
      fec_k = p.fec_k;
      shortened = p.shortened;
    } };
}

impl Profile {
    /// A profile of these fields, `None` out of range.
    ///
    /// | Field | Range | Meaning |
    /// |---|---|---|
    /// | `bits` | 2 to 6 | bits per symbol: QPSK 2, 8QAM 3, 16QAM 4, 32QAM 5, 64QAM 6 |
    /// | `preamble` | 0 to 1,024 | symbols before the bytes |
    /// | `guard` | 0 to 255 | symbols of silence at the end |
    /// | `fec_t` | 0 to 16 | wrong bytes that a codeword corrects; 0 is no code |
    /// | `fec_k` | 16 to 253, `fec_k + 2 * fec_t` at most 255 | data bytes of a full codeword |
    /// | `shortened` | true or false | whether the last codeword is shortened, else fixed |
    pub fn new(
        bits: u8,
        preamble: u16,
        guard: u16,
        fec_t: u8,
        fec_k: u8,
        shortened: bool,
    ) -> Option<Profile>
        ensures { let profile : BurstProfile = record {
          bits = bits;
          preamble = preamble;
          guard = guard;
          fec_t = fec_t;
          fec_k = fec_k;
          shortened = shortened;
        } in
            SomeIff result (IsBurstProfile profile) profile }
    {
        if (MIN_BITS..=MAX_BITS).contains(&bits)
            && preamble <= MAX_PREAMBLE
            && guard <= MAX_GUARD
            && fec_t <= MAX_FEC_T
            && (MIN_FEC_K..=MAX_FEC_K).contains(&fec_k)
            && u16::from(fec_k) + 2 * u16::from(fec_t) <= MAX_CODEWORD
        {
            Some(Profile {
                bits,
                preamble,
                guard,
                fec_t,
                fec_k,
                shortened,
            })
        } else {
            None
        }
    }

    /// Bits per symbol, 2 to 6.
    pub fn bits(&self) -> u8
        ensures value { result ≡ self.now.bits }
        ensures in_range { IsBurstProfile self.now }
    {
        self.bits
    }

    /// The preamble in symbols, 0 to 1,024.
    pub fn preamble(&self) -> u16
        ensures value { result ≡ self.now.preamble }
        ensures in_range { IsBurstProfile self.now }
    {
        self.preamble
    }

    /// The guard time in symbols, 0 to 255.
    pub fn guard(&self) -> u16
        ensures value { result ≡ self.now.guard }
        ensures in_range { IsBurstProfile self.now }
    {
        self.guard
    }

    /// How many wrong bytes a codeword corrects, 0 to 16; 0 is no code.
    pub fn fec_t(&self) -> u8
        ensures value { result ≡ self.now.fec_t }
        ensures in_range { IsBurstProfile self.now }
    {
        self.fec_t
    }

    /// The data bytes of a full codeword, 16 to 253.
    pub fn fec_k(&self) -> u8
        ensures value { result ≡ self.now.fec_k }
        ensures in_range { IsBurstProfile self.now }
    {
        self.fec_k
    }

    /// Whether the last codeword is shortened, else fixed.
    pub fn shortened(&self) -> bool
        ensures value { result ≡ self.now.shortened }
        ensures in_range { IsBurstProfile self.now }
    {
        self.shortened
    }
}
