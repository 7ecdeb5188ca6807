//! Programs and their resolved trees.

use crate::shown::text_of;
use lam_front::check_program;
use lam_resolve::resolve;
use lam_resolve_tree::Resolved;
use std::test::Fail;

/// Fails where a program resolves to another tree than the one with this text.
fn resolves(rt: &HostRuntime, text: &str, want: &str) -> Result<(), Fail> {
    let checked = check_program(rt.alloc(), text.as_bytes())?;
    is_shown(rt, &resolve(&checked)?, want)
}

fn is_shown(rt: &HostRuntime, tree: &Resolved, want: &str) -> Result<(), Fail> {
    match text_of(rt.alloc(), tree) {
        None => Err(Fail::new("memory")),
        Some(text) if text.as_str() == want => Ok(()),
        Some(text) => Err(Fail::new(format_args!("{text}"))),
    }
}

#[test]
fn classes_and_functions_stand_by_number(rt: HostRuntime) -> Result<(), Fail> {
    let text = "fn main(): int { let p: Point = made(3); return p.next[0].y; }
class Empty { }
class Point { x: int; y: int; next: [Point]; }
fn made(n: int): Point { let p: Point = new Point(); p.y = n; p.next = new [Point](n); return p; }";
    let want = "class
class int int [ c1 ]
main: -> int slots c1 { let #0 = f1 ( 3 ); return #0 .c1.2: [ c1 ] [ 0 ]: c1 .c1.1: int; }
made: int -> c1 slots int c1 { let #1 = new c1; #1 .c1.1: int = #0; #1 .c1.2: [ c1 ] = new c1 [ #0 ]; return #1; }
";
    resolves(&rt, text, want)
}

#[test]
fn slot_of_an_ended_block_is_not_used_again(rt: HostRuntime) -> Result<(), Fail> {
    let text = "fn f(a: bool) {
if (a) { let x: int = 1; } else { let x: bytes = \"\"; }
while (!a) { let y: bool = a; a = y; }
let x: tag = mint();
say(text(len(new [int](2))));
}";
    let want =
        "f: bool -> slots bool int bytes bool tag { if #0 { let #1 = 1; } else { let #2 = text; }; \
while Not #0 { let #3 = #0; #0 = #3; }; let #4 = Mint ( ): tag; \
Say ( Text ( Len ( new int [ 2 ] ): int ): bytes ); }
";
    resolves(&rt, text, want)
}

#[test]
fn region_takes_what_it_captures(rt: HostRuntime) -> Result<(), Fail> {
    let text = "fn f(t: tag, n: int) {
let k: caps = caps{t+, t-};
region (label{t;}, k) [n, t] {
  region (label{; t}, caps{t-}) [t] { } catch (d) { }
  let m: int = n;
} catch (e) { let m: int = e; n = m; }
}
fn g() { region (label{;}, caps{}) [] { throw 1; } catch (e) { } }";
    let want = "f: tag int -> slots tag int caps { let #2 = caps( #0+ #0- ); \
r0 label ( #0 ) ( ) #2 takes #1 #0 slots int tag int int int { \
r1 label ( ) ( #1 ) caps( #1- ) takes #1 slots tag int { } catch #1 { }; \
let #2 = #0; } catch #3 { let #4 = #3; #0 = #4; }; }
g: -> slots { r2 label ( ) ( ) caps( ) takes slots int { throw 1; } catch #0 { }; }
";
    resolves(&rt, text, want)
}

#[test]
fn sync_has_a_slot(rt: HostRuntime) -> Result<(), Fail> {
    let text = "class C { n: int; }
fn f(c: C): int { sync (c) { let n: int = c.n; sync (new C()) { c.n = n + 1; } } let n: int = 0; return n; }
fn g(c: C, k: caps): int { return join(spawn(k) f(c)); }";
    let want = "class int
f: c0 -> int slots c0 c0 int c0 int { sync #1 #0 { let #2 = #0 .c0.0: int; \
sync #3 new c0 { #0 .c0.0: int = ( #2 Add 1 ); }; }; let #4 = 0; return #4; }
g: c0 caps -> int slots c0 caps { return Join ( spawn #1 f0 ( #0 ) ): int; }
";
    resolves(&rt, text, want)
}
