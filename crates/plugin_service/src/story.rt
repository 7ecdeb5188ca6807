//! The program and the world that the callers act in.

/// The host's thread `main` starts the plug-in and the users. Tags are of the kind `export`: anybody may work under
/// one, its owner alone lets out what is there.
pub const PROGRAM: &str = r#"
fn answer(user: tag, whose: bytes) {
  region (label{user;}, caps{}) [whose] {
    let wage: int = number(read(open_file(root(), cat(whose, ".wage")), 0, 9));
    append(open_file(root(), cat(whose, ".tax")), text(wage / 4));
  } catch (fault) { }
}

fn carry(user: tag, whose: bytes, other: bytes) {
  region (label{user;}, caps{}) [whose, other] {
    let wage: bytes = read(open_file(root(), cat(whose, ".wage")), 0, 9);
    append(open_file(root(), cat(other, ".tax")), wage);
  } catch (fault) { }
}

fn plugin(ann: tag, bob: tag): int {
  answer(ann, "ann");
  answer(bob, "bob");
  carry(ann, "ann", "bob");
  return 0;
}

fn ann(me: tag, service: thread): int {
  join(service);
  region (label{me;}, caps{me-}) [] {
    let tax: bytes = read(open_file(root(), "ann.tax"), 0, 9);
    region (label{;}, caps{}) [tax] {
      say(cat("Ann pays ", tax));
    } catch (fault) { }
  } catch (fault) { }
  return 0;
}

fn bob(me: tag, service: thread): int {
  join(service);
  region (label{me;}, caps{}) [] {
    say(cat("Bob pays ", read(open_file(root(), "bob.tax"), 0, 9)));
  } catch (fault) { }
  return 0;
}

fn main(first: tag, second: tag): int {
  let service: thread = spawn(caps{}) plugin(first, second);
  spawn(caps{first-}) ann(first, service);
  spawn(caps{second-}) bob(second, service);
  return 0;
}
"#;

/// Each user has a wage and a tax, at a label of their own.
pub const WORLD: &str = r#"{
  "version": 2,
  "tags": [{"name": "ann", "kind": "export"}, {"name": "bob", "kind": "export"}],
  "tree": [
    {"path": "ann.wage", "label": "{ann}/{}", "text": "5200"},
    {"path": "ann.tax", "label": "{ann}/{}", "text": ""},
    {"path": "bob.wage", "label": "{bob}/{}", "text": "4100"},
    {"path": "bob.tax", "label": "{bob}/{}", "text": ""}
  ],
  "pipes": [],
  "threads": [
    {"run": "main", "args": [{"tag": "ann"}, {"tag": "bob"}], "caps": {"plus": [], "minus": ["ann", "bob"]}}
  ]
}
"#;

/// The lam threads, in the order in which they are started.
pub const HOST: u32 = 0;

pub const PLUGIN: u32 = 1;

pub const ANN: u32 = 2;

pub const BOB: u32 = 3;
