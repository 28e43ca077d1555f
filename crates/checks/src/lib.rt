//! The checks by their numbers: one numbering goes through all crates, and each number has one layer.
#![tactic(auto)]

ghost use Rattle.std.specs.Prelude.{◌≡◌};
ghost use Rattle.checks.specs.Layers.{layer_of};

/// The layer of a check: 1 for the bytes and lines of a text, 2 for its grammar, and 3 for what tables and memory allow.
pub fn layer_of(number: u8) -> u8
    ensures { result ≡ layer_of number }
{
    match number {
        9 | 10 | 16 | 17 => 1,
        11..=15 => 2,
        _ => 3,
    }
}
