//! A valid program with every production of the grammar and every built-in call.

use lam_front::{check_program, read_program};
use lam_print::print;
use std::test::Fail;

/// As somebody typed it: comments, each kind of white space, parentheses that mean nothing.
const TYPED: &str = "// Every form of the language.\r
class Empty{}
class Thing{n:int;ok:bool;word:bytes;owner:tag;home:label;can:caps;kept:file;
place:dir;way:pipe;worker:thread;next:Thing;table:[[int]];}

fn nothing(){}
fn one(t:tag):int{return(1);}
fn two ( a : int , b : [Thing] ) : int { return a+len(b) ; }
fn quiet(){return;}

fn numbers(a: int, b: int, s: bool, t: bool): bool {
\tlet x: int = ((a + b) - 1) + -(a * (b + 2)) / 3 % 4 - (5 - 6); // grouped
\tlet y: bool = a < b && b <= x || x > 7 && !(x >= 8) || !!s;
\tlet z: bool = (a == b) == (s != t) || true && false;
\treturn y == z || (s || t) && (a < b) != y;
}

fn things(d: dir, o: tag): Thing {
let e: Empty = new Empty();
let g: Thing = new Thing();
g.n = 9223372036854775807;
g.ok = e == null;
g.word = \"\\x4a\\t\\n\\\"\\\\ ~é\";
g.owner = mint();
g.home = label{;};
g.home = label{o; };
g.home = label{o, g.owner; o, mint()};
g.home = label{;o};
g.can = caps{};
g.can = caps{o+};
g.can = caps{o+, o-};
g.kept = make_file(d, \"f\", g.home);
g.place = make_dir(d, \"d\", label_of(g));
g.way = make_pipe(my_label());
g.worker = spawn(g.can) one(o);
g.worker = spawn(my_caps()) zero();
g.table = new [[int]](2 * 2);
g.table[0] = new [int](len(g.table));
g.table[0][(1)] = g.table[1][0];
(g.next) = copy(g, my_label());
g.next.next.n = -(-(g.n));
nothing();
quiet();
g;
return g;
}

fn zero(): int { throw 0; }

fn bytes_of(f: file, b: bytes): int {
append(f, cat(b, slice(b, 0, size(b))));
cut(f, length(f) - 1);
say(text(byte(read(f, 0, 1), 0) + number(b)));
return 0;
}

fn rooms(n: bytes): file {
let d: dir = open_dir(root(), n);
remove(d, n);
return open_file(d, n);
}

fn pipes(p: pipe, c: caps, w: thread): int {
send(p, \"\");
send_caps(p, c);
let m: bytes = receive(p);
let k: caps = receive_caps(p);
if (m == null) {}
if (k != null) { return join(w); } else { }
while (false) { m = receive(p); }
sync (new [int](1)) { throw 1; }
region (label{;}, caps{}) [] { } catch (e) { }
region (my_label(), my_caps()) [p] { say(receive(p)); } catch (e) { throw e; }
region (label{;}, caps{}) [p, m, w] {
let n: int = join(w);
send(p, m);
region (label{;}, k2(n)) [n] { n = n + 1; } catch (e) { n = e; }
} catch (f) { }
return two(1, new [Thing](0));
}

fn k2(n: int): caps { return null; }";

/// The same by the rules of canonical text.
const CANONICAL: &str = "class Empty { }

class Thing {
  n: int;
  ok: bool;
  word: bytes;
  owner: tag;
  home: label;
  can: caps;
  kept: file;
  place: dir;
  way: pipe;
  worker: thread;
  next: Thing;
  table: [[int]];
}

fn nothing() { }

fn one(t: tag): int {
  return 1;
}

fn two(a: int, b: [Thing]): int {
  return a + len(b);
}

fn quiet() {
  return ;
}

fn numbers(a: int, b: int, s: bool, t: bool): bool {
  let x: int = a + b - 1 + -(a * (b + 2)) / 3 % 4 - (5 - 6);
  let y: bool = a < b && b <= x || x > 7 && !(x >= 8) || !!s;
  let z: bool = (a == b) == (s != t) || true && false;
  return y == z || (s || t) && (a < b) != y;
}

fn things(d: dir, o: tag): Thing {
  let e: Empty = new Empty();
  let g: Thing = new Thing();
  g.n = 9223372036854775807;
  g.ok = e == null;
  g.word = \"J\\x09\\x0a\\\"\\\\ ~\\xc3\\xa9\";
  g.owner = mint();
  g.home = label{;};
  g.home = label{o;};
  g.home = label{o, g.owner; o, mint()};
  g.home = label{; o};
  g.can = caps{};
  g.can = caps{o+};
  g.can = caps{o+, o-};
  g.kept = make_file(d, \"f\", g.home);
  g.place = make_dir(d, \"d\", label_of(g));
  g.way = make_pipe(my_label());
  g.worker = spawn(g.can) one(o);
  g.worker = spawn(my_caps()) zero();
  g.table = new [[int]](2 * 2);
  g.table[0] = new [int](len(g.table));
  g.table[0][1] = g.table[1][0];
  g.next = copy(g, my_label());
  g.next.next.n = --g.n;
  nothing();
  quiet();
  g;
  return g;
}

fn zero(): int {
  throw 0;
}

fn bytes_of(f: file, b: bytes): int {
  append(f, cat(b, slice(b, 0, size(b))));
  cut(f, length(f) - 1);
  say(text(byte(read(f, 0, 1), 0) + number(b)));
  return 0;
}

fn rooms(n: bytes): file {
  let d: dir = open_dir(root(), n);
  remove(d, n);
  return open_file(d, n);
}

fn pipes(p: pipe, c: caps, w: thread): int {
  send(p, \"\");
  send_caps(p, c);
  let m: bytes = receive(p);
  let k: caps = receive_caps(p);
  if (m == null) { }
  if (k != null) {
    return join(w);
  } else { }
  while (false) {
    m = receive(p);
  }
  sync (new [int](1)) {
    throw 1;
  }
  region (label{;}, caps{}) [] { } catch (e) { }
  region (my_label(), my_caps()) [p] {
    say(receive(p));
  } catch (e) {
    throw e;
  }
  region (label{;}, caps{}) [p, m, w] {
    let n: int = join(w);
    send(p, m);
    region (label{;}, k2(n)) [n] {
      n = n + 1;
    } catch (e) {
      n = e;
    }
  } catch (f) { }
  return two(1, new [Thing](0));
}

fn k2(n: int): caps {
  return null;
}
";

#[test]
fn every_form_is_printed(rt: HostRuntime) -> Result<(), Fail> {
    let program = read_program(rt.alloc(), TYPED.as_bytes())?;
    assert_eq!(rt; print(&program)?.as_str(), CANONICAL);
    let again = read_program(rt.alloc(), CANONICAL.as_bytes())?;
    assert_eq!(rt; print(&again)?.as_str(), CANONICAL);
    Ok(())
}

#[test]
fn every_form_is_checked(rt: HostRuntime) -> Result<(), Fail> {
    let checked = check_program(rt.alloc(), TYPED.as_bytes());
    assert!(rt; checked.is_ok(), "keeps every rule");
    Ok(())
}
