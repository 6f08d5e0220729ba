ghost use Rattle.std.specs.Prelude.{◌≡◌};
ghost use Rattle.campaign_core.specs.declared.gate.Gate.{Gate};
ghost use Rattle.turn_book.specs.Words.{gate_word, IsGate};
ghost use Rattle.turn_book.specs.Steps.{Found};

use campaign_core::Gate;

// How far apart next and target stand in a word, and target and the marks.
const PLACE: u64 = 1 << 20;

/// The mark of a sealed gate.
pub const SEALED: u64 = 1 << 40;

/// The mark of a cancelled gate.
pub const CANCELLED: u64 = 1 << 41;

/// The word of a gate.
pub fn word_of(gate: Gate) -> u64
    requires { IsGate gate }
    ensures { result ≡ gate_word gate }
{
    let marks = u64::from(gate.sealed) + 2 * u64::from(gate.cancelled);
    u64::from(gate.next) + PLACE * (u64::from(gate.target) + PLACE * marks)
}

/// The gate of a word.
pub fn gate_from(word: u64) -> Gate
    requires { Found word (λ gate. Unit {0}) }
    ensures { (gate : Gate) → IsGate gate → word ≡ gate_word gate → result ≡ gate }
{
    let above = word / PLACE;
    let marks = above / PLACE;
    Gate {
        next: (word % PLACE) as u32,
        target: (above % PLACE) as u32,
        sealed: marks % 2 == 1,
        cancelled: marks / 2 == 1,
    }
}
