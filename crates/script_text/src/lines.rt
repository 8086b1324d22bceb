ghost use Rattle.std.specs.Prelude.{◌≡◌, ◌==◌, ◌<◌, ◌∷◌, length, None};
ghost use Rattle.std.specs.Option.{option_copied, option_map};
ghost use Rattle.std.specs.List.{position};
ghost use Rattle.script_text.specs.Lines.{words_of, words_after, first, second, third, one, two, three, four};
ghost use Rattle.script_text.specs.Reading.{BeginsWithLine};

fn line_feed(bytes: &[u8]) -> Option<usize>
    ensures { result ≡ position (λ b. b == 10) bytes.now }
{
    bytes.iter().position(|b| *b == b'\n')
}

/// The text of the first line, without its line feed, and how many bytes the line has with it.
pub(crate) fn split_line(bytes: &[u8]) -> (&[u8], usize)
    requires { 0 < length bytes.now }
    ensures { BeginsWithLine bytes.now result.0.now result.1 }
{
    match line_feed(bytes) {
        Some(at) => (&bytes[..at], at + 1),
        None => (bytes, bytes.len()),
    }
}

/// The first word, and the words after it where a space follows.
pub(crate) fn split_word(text: &str) -> (&str, Option<&str>)
    ensures { words_of text.now ≡ result.0.now ∷ words_after (option_copied result.1) }
{
    match text.split_once(' ') {
        Some((word, rest)) => (word, Some(rest)),
        None => (text, None),
    }
}

// A word by its place among those after the first, if it is there.

pub(crate) fn first(args: Option<&str>) -> Option<&str>
    ensures { option_copied result ≡ first (words_after (option_copied args.entry)) }
{
    let (word, _) = split_word(args?);
    Some(word)
}

pub(crate) fn second(args: Option<&str>) -> Option<&str>
    ensures { option_copied result ≡ second (words_after (option_copied args.entry)) }
{
    let (_, others) = split_word(args?);
    first(others)
}

pub(crate) fn third(args: Option<&str>) -> Option<&str>
    ensures { option_copied result ≡ third (words_after (option_copied args.entry)) }
{
    let (_, others) = split_word(args?);
    second(others)
}

// The words after the first, where there are just so many.

pub(crate) fn one(args: Option<&str>) -> Option<&str>
    ensures { option_copied result ≡ one (words_after (option_copied args.entry)) }
{
    let (word, others) = split_word(args?);
    if others.is_some() {
        return None;
    }
    Some(word)
}

pub(crate) fn two(args: Option<&str>) -> Option<(&str, &str)>
    ensures { option_map (λ words. (words.0.now, words.1.now)) result ≡ two (words_after (option_copied args.entry)) }
{
    let (first, others) = split_word(args?);
    Some((first, one(others)?))
}

pub(crate) fn three(args: Option<&str>) -> Option<(&str, &str, &str)>
    ensures { option_map (λ words. (words.0.now, words.1.now, words.2.now)) result ≡ three (words_after (option_copied args.entry)) }
{
    let (first, others) = split_word(args?);
    let (second, third) = two(others)?;
    Some((first, second, third))
}

pub(crate) fn four(args: Option<&str>) -> Option<(&str, &str, &str, &str)>
    ensures { option_map (λ words. (words.0.now, words.1.now, words.2.now, words.3.now)) result ≡ four (words_after (option_copied args.entry)) }
{
    let (first, others) = split_word(args?);
    let (second, third, fourth) = three(others)?;
    Some((first, second, third, fourth))
}
