// The letters of labels.
ghost use Rattle.std.specs.Prelude.{◌≡◌, ◌≤◌};
ghost use Rattle.defs_soar.specs.Naming.{letter_from};

/// The letter of the identifier of a label: the first of its name as a capital, or I.
pub fn letter_from(name: &[u8]) -> u8
    ensures letter { result ≡ letter_from name.now }
    ensures low { 65 ≤ result }
    ensures high { result ≤ 90 }
{
    match name.first() {
        Some(first) if first.is_ascii_alphabetic() => first.to_ascii_uppercase(),
        _ => b'I',
    }
}
