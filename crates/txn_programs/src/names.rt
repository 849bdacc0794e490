//! The form of a name.

ghost use Rattle.std.specs.Prelude.{◌≡◌};
ghost use Rattle.std.specs.List.{list_all};
ghost use Rattle.txn_programs.specs.Names.{is_name, is_name_byte};

fn is_name_byte(byte: u8) -> bool
    ensures { result ≡ is_name_byte byte }
{
    byte.is_ascii_alphanumeric() || byte == b'_'
}

fn are_name_bytes(text: &[u8]) -> bool
    ensures { result ≡ list_all is_name_byte text.now }
{
    text.iter().all(|byte| is_name_byte(*byte))
}

/// Whether the bytes have the form of a name: a letter, then letters, digits and underscores.
#[tactic(auto, unfolding(crate::specs::Names::is_name))]
pub fn is_name(text: &[u8]) -> bool
    ensures { result ≡ is_name text.now }
{
    match text {
        [] => false,
        [first, rest @ ..] => first.is_ascii_alphabetic() && are_name_bytes(rest),
    }
}
