// Probe readings, and the kind and the number that stand for one (document 01, "Bale file").
ghost use Rattle.std.specs.Prelude.{◌≡◌, T};
ghost use Rattle.refusals.specs.Definitions.Outcomes.{outcome};
ghost use Rattle.bale.specs.Definitions.Readings.{fault_ok, code_in, code_of, reading_ok, note_ok, decode};

use crate::{Code, Note, Reading};
use refusals::Refusal;

// Whether a fault code is 1 to 255.
#[tactic(auto, unfolding(crate::specs::Definitions::Readings::fault_ok))]
fn fault_ok(code: u32) -> bool
    ensures { result ≡ fault_ok code }
{
    (1..=255).contains(&code)
}

impl Reading {
    // Whether a file can hold the reading.
    pub(crate) fn is_lawful(self) -> bool
        ensures { result ≡ reading_ok self }
    {
        match self {
            Reading::NotFitted => true,
            Reading::Percentage(x) => x <= 100.0 && x.to_bits() < 0x8000_0000,
            Reading::Fault(n) => fault_ok(n),
        }
    }

    // The kind and the number of a reading that a file can hold.
    pub(crate) fn code(self) -> Code
        requires { T (reading_ok self) }
        ensures { result ≡ code_in (code_of self) }
    {
        match self {
            Reading::NotFitted => Code { kind: 0, number: 0 },
            Reading::Percentage(x) => Code {
                kind: 1,
                number: x.to_bits(),
            },
            Reading::Fault(n) => Code { kind: 2, number: n },
        }
    }
}

impl Note {
    // Whether a file can hold both readings.
    pub(crate) fn is_lawful(self) -> bool
        ensures { result ≡ note_ok self }
    {
        self.before_drier.is_lawful() && self.at_press.is_lawful()
    }
}

impl TryFrom<Reading> for Code {
    type Error = Refusal;

    ghost try_from_gives = { λ reading code. code ≡ outcome (code_of reading).refusal (code_in (code_of reading)) };

    fn try_from(reading: Reading) -> Result<Code, Refusal> {
        if reading.is_lawful() {
            Ok(reading.code())
        } else {
            Err(Refusal::Reading)
        }
    }
}

// The percentage of some bits: those above +infinity's are a NaN's, or have the sign bit set.
fn percentage(bits: u32) -> Result<Reading, Refusal>
    ensures { result ≡ outcome (decode 1 bits).refusal (decode 1 bits).reading }
{
    if bits <= 0x7F80_0000 && f32::from_bits(bits) <= 100.0 {
        Ok(Reading::Percentage(f32::from_bits(bits)))
    } else {
        Err(Refusal::Reading)
    }
}

impl TryFrom<Code> for Reading {
    type Error = Refusal;

    ghost try_from_gives = { λ code reading. reading ≡ outcome (decode code.kind code.number).refusal (decode code.kind code.number).reading };

    fn try_from(code: Code) -> Result<Reading, Refusal> {
        let number = code.number;
        match code.kind {
            0 => (number == 0)
                .then_some(Reading::NotFitted)
                .ok_or(Refusal::Reading),
            1 => percentage(number),
            2 => fault_ok(number)
                .then_some(Reading::Fault(number))
                .ok_or(Refusal::Reading),
            3..=255 => Err(Refusal::Reading),
        }
    }
}
