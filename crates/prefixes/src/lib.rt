// Whether bytes begin with a word, or are that word. Nothing here knows the protocol.

#![tactic(auto)]

ghost use Rattle.std.specs.Prelude.{◌≡◌};
ghost use Rattle.prefixes.specs.Prefix.{prefixed, is_word};

// Whether a record begins with these bytes.
pub fn begins_with(bytes: &[u8], word: &[u8]) -> bool
    ensures { result ≡ prefixed word.now bytes.now }
{
    bytes.starts_with(word)
}

// Whether a record, or a part of one, is these bytes and no more.
pub fn is_word(bytes: &[u8], word: &[u8]) -> bool
    ensures { result ≡ is_word word.now bytes.now }
{
    bytes == word
}
