//! A list of languages: entries between commas, with spaces around them.
ghost use Rattle.std.specs.Prelude.{◌≡◌};
ghost use Rattle.stage.specs.Languages.{trimmed_start, trimmed_end, trimmed, matches, any_matches};

// Bytes without the spaces in front.
fn trim_start(bytes: &[u8]) -> &[u8]
    ensures { result.now ≡ trimmed_start bytes.now }
{
    let mut rest = bytes;
    while let [b' ', tail @ ..] = rest {
        rest = tail;
    }
    rest
}

// Bytes without the spaces behind.
fn trim_end(bytes: &[u8]) -> &[u8]
    ensures { result.now ≡ trimmed_end bytes.now }
{
    let mut rest = bytes;
    while let [head @ .., b' '] = rest {
        rest = head;
    }
    rest
}

// Bytes without the spaces in front and behind.
fn trim(bytes: &[u8]) -> &[u8]
    ensures { result.now ≡ trimmed bytes.now }
{
    trim_end(trim_start(bytes))
}

// Whether an entry is the language, or begins with it and a hyphen.
fn matches_language(entry: &[u8], language: &[u8]) -> bool
    ensures { result ≡ matches language.now entry.now }
{
    matches!(entry.strip_prefix(language), Some([] | [b'-', ..]))
}

/// Whether an entry of a list of languages is the language or a kind of it.
pub(crate) fn any_matches(list: &[u8], language: &[u8]) -> bool
    ensures { result ≡ any_matches language.now list.now }
{
    list.split(|byte| *byte == b',')
        .any(|entry| matches_language(trim(entry), language))
}
