//! Figures of the parts, evaluated on the definitions that the contracts cite: specs/ and proofs/, and a function for the theorem.
#![tactic(auto)]

ghost use Rattle.readings.specs.Readings.{ReadingsHold};

/// Each figure that is told of the parts is what the definitions give.
pub fn readings_hold()
    ensures { ReadingsHold }
{}
