//! The unread rest of a text.

ghost use Rattle.std.specs.Prelude.{◌≡◌, ◌∷◌, [], chars, drop, MatchOption, IfSome, IsUtf8};
ghost use Rattle.lam_lexer.specs.Characters.{first};

/// A text's first character, and what is left behind it.
pub fn split_first(text: &str) -> Option<(char, &str)>
    ensures cases { MatchOption result (chars text.now ≡ []) (λ x. chars text.now ≡ x.0 ∷ chars x.1.now) }
    ensures utf8 { IfSome result (λ x. IsUtf8 x.1.now) }
{
    let mut chars = text.chars();
    match chars.next() {
        Some(c) => Some((c, chars.as_str())),
        None => None,
    }
}

/// A text's first character.
pub fn first_char(text: &str) -> Option<char>
    ensures { result ≡ first (chars text.now) }
{
    match split_first(text) {
        Some((c, _)) => Some(c),
        None => None,
    }
}

/// What is left behind the first character.
pub fn behind_first(text: &str) -> &str
    ensures { chars result.now ≡ drop 1 (chars text.now) }
{
    match split_first(text) {
        Some((_, rest)) => rest,
        None => text,
    }
}
