//! The reserved words.

ghost use Rattle.std.specs.Prelude.{◌≡◌};
ghost use Rattle.lam_lexer.specs.Lexed.{reserved};
ghost use Rattle.lam_lexer.specs.Letters as spec;

use crate::token::TokenKind;

fn of_b_c<'a>(name: &str) -> Option<TokenKind<'a>>
    ensures { result ≡ spec.of_b_c name.now }
{
    match name {
        "bool" => Some(TokenKind::Bool),
        "bytes" => Some(TokenKind::Bytes),
        "class" => Some(TokenKind::Class),
        "catch" => Some(TokenKind::Catch),
        "caps" => Some(TokenKind::Caps),
        _ => None,
    }
}

fn of_d_e_i_p<'a>(name: &str) -> Option<TokenKind<'a>>
    ensures { result ≡ spec.of_d_e_i_p name.now }
{
    match name {
        "dir" => Some(TokenKind::Dir),
        "else" => Some(TokenKind::Else),
        "if" => Some(TokenKind::If),
        "int" => Some(TokenKind::Int),
        "pipe" => Some(TokenKind::Pipe),
        _ => None,
    }
}

fn of_f_n<'a>(name: &str) -> Option<TokenKind<'a>>
    ensures { result ≡ spec.of_f_n name.now }
{
    match name {
        "fn" => Some(TokenKind::Fn),
        "false" => Some(TokenKind::False),
        "file" => Some(TokenKind::File),
        "new" => Some(TokenKind::New),
        "null" => Some(TokenKind::Null),
        _ => None,
    }
}

fn of_l_r_w<'a>(name: &str) -> Option<TokenKind<'a>>
    ensures { result ≡ spec.of_l_r_w name.now }
{
    match name {
        "let" => Some(TokenKind::Let),
        "label" => Some(TokenKind::Label),
        "return" => Some(TokenKind::Return),
        "region" => Some(TokenKind::Region),
        "while" => Some(TokenKind::While),
        _ => None,
    }
}

fn of_s_t<'a>(name: &str) -> Option<TokenKind<'a>>
    ensures { result ≡ spec.of_s_t name.now }
{
    match name {
        "sync" => Some(TokenKind::Sync),
        "spawn" => Some(TokenKind::Spawn),
        "throw" => Some(TokenKind::Throw),
        "true" => Some(TokenKind::True),
        "tag" => Some(TokenKind::Tag),
        "thread" => Some(TokenKind::Thread),
        _ => None,
    }
}

/// The reserved word that a text is, where it begins so: few are compared.
fn by_letter<'a>(first: u8, name: &str) -> Option<TokenKind<'a>>
    ensures { result ≡ spec.by_letter first name.now }
{
    match first {
        b'b' | b'c' => of_b_c(name),
        b'd' | b'e' | b'i' | b'p' => of_d_e_i_p(name),
        b'f' | b'n' => of_f_n(name),
        b'l' | b'r' | b'w' => of_l_r_w(name),
        b's' | b't' => of_s_t(name),
        _ => None,
    }
}

/// The reserved word that a text is.
pub fn reserved<'a>(name: &str) -> Option<TokenKind<'a>>
    ensures { result ≡ reserved name.now }
{
    match name.as_bytes().first().copied() {
        Some(first) => by_letter(first, name),
        None => None,
    }
}
