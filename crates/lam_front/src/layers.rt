//! The layers of the front end, one after another.

ghost use Rattle.std.specs.Prelude.{◌≡◌, ◌⊎◌, MatchResult};
ghost use Rattle.lam_syntax.specs.Tree.{ProgramTree, program_tree};
ghost use Rattle.region_check.specs.Seen.{checked_tree};
ghost use Rattle.lam_front.specs.Programs.{IsSpelt, IsMisspelt, IsFine, IsBroken};
ghost use Rattle.lam_front.specs.declared.fault.ProgramFault.{ProgramFault};
ghost use Rattle.lam_front.specs.declared.fault.ProgramFault.TheVariants.{NoMemory as no_memory};

use crate::fault::ProgramFault;
use lam_lexer::lex;
use lam_parser::parse;
use lam_syntax::Program;
use lam_types::check;
use region_check::{Checked, regions};
use std::alloc::Global;
use std::str::from_utf8;

/// The program that the bytes spell, or their first fault. Only want of memory is free.
pub fn read_program(alloc: Global, bytes: &[u8]) -> Result<Program, ProgramFault>
    // What is found is the bytes'.
    ensures exact { MatchResult result (λ p. IsSpelt bytes.now (program_tree p)) (λ f. (f ≡ no_memory) ⊎ IsMisspelt bytes.now f) }
    // The program that they spell is found.
    ensures spelt { (p : ProgramTree) → IsSpelt bytes.now p → MatchResult result (λ found. program_tree found ≡ p) (λ f. f ≡ no_memory) }
    // Their fault is found.
    ensures misspelt { (f : ProgramFault) → IsMisspelt bytes.now f → MatchResult result (λ _. ⊥) (λ e. (e ≡ no_memory) ⊎ (e ≡ f)) }
{
    read_text(alloc, bytes)
}

/// The program that the bytes spell, where it keeps the type rules and the region rules, or their first fault.
/// Only want of memory is free.
pub fn check_program(alloc: Global, bytes: &[u8]) -> Result<Checked, ProgramFault>
    // What is found is the bytes'.
    ensures exact { MatchResult result (λ c. IsFine bytes.now (checked_tree c)) (λ f. (f ≡ no_memory) ⊎ IsBroken bytes.now f) }
    // The checked program that they spell is found.
    ensures fine { (p : ProgramTree) → IsFine bytes.now p → MatchResult result (λ found. checked_tree found ≡ p) (λ f. f ≡ no_memory) }
    // Their fault is found.
    ensures broken { (f : ProgramFault) → IsBroken bytes.now f → MatchResult result (λ _. ⊥) (λ e. (e ≡ no_memory) ⊎ (e ≡ f)) }
{
    check_text(alloc, bytes)
}

fn read_text(alloc: Global, bytes: &[u8]) -> Result<Program, ProgramFault>
    ensures { MatchResult result (λ p. IsSpelt bytes.now (program_tree p)) (λ f. (f ≡ no_memory) ⊎ IsMisspelt bytes.now f) }
{
    let Ok(text) = from_utf8(bytes) else {
        return Err(ProgramFault::NotUtf8);
    };
    let tokens = lex(alloc, text)?;
    Ok(parse(alloc, tokens)?)
}

fn check_text(alloc: Global, bytes: &[u8]) -> Result<Checked, ProgramFault>
    ensures { MatchResult result (λ c. IsFine bytes.now (checked_tree c)) (λ f. (f ≡ no_memory) ⊎ IsBroken bytes.now f) }
{
    let program = read_text(alloc, bytes)?;
    let typed = check(program)?;
    Ok(regions(typed)?)
}
