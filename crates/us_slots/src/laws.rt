//! Laws of the definitions of this crate, each as the contract of a function that does nothing.

ghost use Rattle.us_slots.specs.Laws.{CarriedBytesFit, BytesCostMinislots};

/// Of bytes that some minislots carry in a long burst, a data grant takes at most those minislots.
pub fn carried_bytes_fit()
    ensures { CarriedBytesFit }
{}

/// A data grant of any byte takes at least one minislot.
pub fn bytes_cost_minislots()
    ensures { BytesCostMinislots }
{}
