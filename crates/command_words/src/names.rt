ghost use Rattle.std.specs.Prelude.{◌≡◌, IfSome};
ghost use Rattle.std.specs.Option.{option_copied};
ghost use Rattle.std.specs.List.{list_all};
ghost use Rattle.mdc_types.specs.Names.{is_name_byte};
ghost use Rattle.command_words.specs.Names.{is_name_word, name_of, IsArrayName};

fn is_name_byte(b: u8) -> bool
    ensures { result ≡ is_name_byte b }
{
    b.is_ascii_alphanumeric() || b == b'_'
}

fn are_name_bytes(bytes: &[u8]) -> bool
    ensures { result ≡ list_all is_name_byte bytes.now }
{
    bytes.iter().all(|b| is_name_byte(*b))
}

fn is_name_word(word: &str) -> bool
    ensures { result ≡ is_name_word word.now }
{
    1 <= word.len() && word.len() <= 31 && are_name_bytes(word.as_bytes())
}

/// The name of an array that the word is: 1 to 31 ASCII letters, digits or `_`.
pub(crate) fn array_name(word: &str) -> Option<&str>
    ensures value { option_copied result ≡ name_of word.now }
    ensures valid { IfSome result (λ name. IsArrayName name.now) }
{
    if !is_name_word(word) {
        return None;
    }
    Some(word)
}
