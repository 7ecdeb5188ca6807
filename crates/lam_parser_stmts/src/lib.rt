//! The parser of statements without blocks, and of region heads.
//!
//! Each function reads one form, from the token behind its word on and with a depth sum, and says so in its contract.
//! `lam_parser` reads statements with blocks, which contain one another.
//!
//! The promise of `parse` (`lam_parser`) rests on the clauses `reads`. Nothing here is a matter of speed.
#![tactic(auto)]

mod nodes;
mod stmts;

pub use nodes::{Handler, make_if, make_region, make_sync, make_while};
pub use stmts::{
    ReadStmt, RegionHead, captures, expression_statement, let_statement, region_head,
    return_statement, throw_statement,
};
