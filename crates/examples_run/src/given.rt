//! Programs and worlds that several examples run.

use crate::call::Given;

/// Thread 0 runs `main` on nothing, and holds nothing.
pub const BARE_WORLD: &str =
    "{\"version\":1,\"tags\":[],\"tree\":[],\"pipes\":[],\"threads\":[{\"run\":\"main\",\"args\":[],\"caps\":{\"plus\":[],\"minus\":[]}}]}";

/// Thread 0 runs `main` on the tag `a`, and may not add it.
pub const HOLDS_NOTHING: &str =
    "{\"version\":1,\"tags\":[\"a\"],\"tree\":[],\"pipes\":[],\"threads\":[{\"run\":\"main\",\"args\":[{\"tag\":\"a\"}],\"caps\":{\"plus\":[],\"minus\":[]}}]}";

/// The words of a run by one worker, for the observer who sees what is public.
pub const ONE_WORKER: &[&str] = &["run", "P", "W", "{}/{}", "B", "--workers", "1"];

/// A region is entered.
pub const ENTRY: &str =
    "fn main(a: tag): int {\n  let x: int = 1;\n  region (label{a;}, caps{}) [x] { say(\"in\"); } catch (e) { say(\"no\"); }\n  return x;\n}\n";

/// The same without the capability to add its tag.
pub const ENTERS: Given<'static> = Given {
    program: ENTRY,
    world: HOLDS_NOTHING,
};

/// What is seen of it.
pub const ENTRY_SEEN: &str =
    "t0 {}/{} enter {a}/{} caps +{}-{} region 0 (1) = refused AddS a\nt0 {}/{} end Denied = done\n";

/// A loop in a secret region goes as often as a secret file says, and a thing is made after it.
pub const SECRET_LOOP: &str =
    "class C { v: int; }\nfn main(a: tag): int {\n  region (label{a;}, caps{}) [] {\n    let n: int = number(read(open_file(root(), \"s\"), 0, 9));\n    while (n > 0) { let c: C = new C(); n = n - 1; }\n  } catch (e) { }\n  let d: C = new C();\n  return 0;\n}\n";

/// The secret is 0.
pub const ZERO: Given<'static> = Given {
    program: SECRET_LOOP,
    world: "{\"version\":1,\"tags\":[\"a\"],\"tree\":[{\"path\":\"s\",\"label\":\"{a}/{}\",\"text\":\"0\"}],\"pipes\":[],\"threads\":[{\"run\":\"main\",\"args\":[{\"tag\":\"a\"}],\"caps\":{\"plus\":[\"a\"],\"minus\":[]}}]}",
};

/// The secret is 3.
pub const THREE: Given<'static> = Given {
    program: SECRET_LOOP,
    world: "{\"version\":1,\"tags\":[\"a\"],\"tree\":[{\"path\":\"s\",\"label\":\"{a}/{}\",\"text\":\"3\"}],\"pipes\":[],\"threads\":[{\"run\":\"main\",\"args\":[{\"tag\":\"a\"}],\"caps\":{\"plus\":[\"a\"],\"minus\":[]}}]}",
};
