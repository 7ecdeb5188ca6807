//! The parser of types.

ghost use Rattle.std.specs.Prelude.{◌≡◌, ◌<◌, ◌≤◌, ◌+◌, length, IfOk};
ghost use Rattle.lam_syntax.specs.Tree.{type_form, type_tree, type_node, array_type};
ghost use Rattle.lam_grammar.specs.Meaning.{type_form_of};
ghost use Rattle.lam_grammar.specs.Program.{most_depth};
ghost use Rattle.lam_parser_parts.specs.Types.{ReadsType};

use lam_lexer::{Token, TokenKind};
use lam_parser_tokens::{Break, Mark, Wanted, take, take_if};
use lam_syntax::{TypeExpr, TypeKind};
use std::alloc::{AllocError, Global};
use want_of_memory::NoMemory;

/// The type that is written from a token on, and the index of the token behind it.
///
/// # Errors
///
/// `Unexpected` at the first token that continues no type, `TooDeep` at the first at which the depth sum passes its
/// limit, `NoMemory` where memory is refused.
pub fn typ(
    alloc: Global,
    tokens: &[Token],
    at: usize,
    depth: u64,
) -> Result<(TypeExpr, usize), Break>
    requires in_range { at ≤ length tokens.now }
    requires bounded { depth ≤ most_depth + 2 }
    ensures reads { ReadsType tokens.now depth at result }
    ensures goes_on { IfOk result (λ x. (at < x.1) × (x.1 ≤ length tokens.now)) }
{
    let inner = depth + 1;
    if let Some(word) = take_if(tokens, at, inner, Mark::TypeWord)? {
        return Ok((named_type(alloc, word)?, at + 1));
    }
    if let Some(name) = take_if(tokens, at, inner, Mark::Name)? {
        return Ok((named_type(alloc, name)?, at + 1));
    }
    let Some(bracket) = take_if(tokens, at, inner, Mark::BracketOpen)? else {
        return Err(Break::Unexpected {
            at,
            wanted: Wanted::TypeName,
        });
    };
    let (element, next) = typ(alloc, tokens, at + 1, inner)?;
    let _close = take(tokens, next, inner, Mark::BracketClose)?;
    Ok((array_of(alloc, bracket.at, element)?, next + 1))
}

fn array_of(alloc: Global, at: u64, element: TypeExpr) -> Result<TypeExpr, AllocError>
    ensures { IfOk result (λ t. type_tree t ≡ type_node at (array_type (type_tree element))) }
{
    let element = Box::new(alloc, element)?;
    Ok(TypeExpr {
        at,
        kind: TypeKind::Array(element),
    })
}

// The type that one word or name is.
fn named_type(alloc: Global, token: &Token) -> Result<TypeExpr, NoMemory>
    ensures { IfOk result (λ t. type_tree t ≡ type_node token.now.at (type_form_of token.now.kind)) }
{
    Ok(TypeExpr {
        at: token.at,
        kind: type_kind(alloc, &token.kind)?,
    })
}

fn type_kind(alloc: Global, kind: &TokenKind) -> Result<TypeKind, NoMemory>
    ensures { IfOk result (λ t. type_form t ≡ type_form_of kind.now) }
{
    match kind {
        TokenKind::Int => Ok(TypeKind::Int),
        TokenKind::Bool => Ok(TypeKind::Bool),
        TokenKind::Bytes => Ok(TypeKind::Bytes),
        TokenKind::Tag => Ok(TypeKind::Tag),
        TokenKind::Label => Ok(TypeKind::Label),
        TokenKind::Caps => Ok(TypeKind::Caps),
        TokenKind::File => Ok(TypeKind::File),
        TokenKind::Dir => Ok(TypeKind::Dir),
        TokenKind::Pipe => Ok(TypeKind::Pipe),
        TokenKind::Thread => Ok(TypeKind::Thread),
        TokenKind::Id(x) => Ok(TypeKind::Class(String::from_str(alloc, x.as_str())?)),
        _ => Ok(TypeKind::Class(String::new(alloc))),
    }
}
