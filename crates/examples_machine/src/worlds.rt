//! Documents of worlds from which several examples start.

/// Thread 0 runs `main` on nothing, and holds nothing.
pub const BARE: &str =
    "{\"version\":1,\"tags\":[],\"tree\":[],\"pipes\":[],\"threads\":[{\"run\":\"main\",\"args\":[],\"caps\":{\"plus\":[],\"minus\":[]}}]}";

/// Thread 0 runs `main` on the tag `a`, and may not add it.
pub const HOLDS_NOTHING: &str =
    "{\"version\":1,\"tags\":[\"a\"],\"tree\":[],\"pipes\":[],\"threads\":[{\"run\":\"main\",\"args\":[{\"tag\":\"a\"}],\"caps\":{\"plus\":[],\"minus\":[]}}]}";

/// The same, and may add it.
pub const HOLDS_PLUS: &str =
    "{\"version\":1,\"tags\":[\"a\"],\"tree\":[],\"pipes\":[],\"threads\":[{\"run\":\"main\",\"args\":[{\"tag\":\"a\"}],\"caps\":{\"plus\":[\"a\"],\"minus\":[]}}]}";

/// The same, and may add and drop it.
pub const HOLDS_BOTH: &str =
    "{\"version\":1,\"tags\":[\"a\"],\"tree\":[],\"pipes\":[],\"threads\":[{\"run\":\"main\",\"args\":[{\"tag\":\"a\"}],\"caps\":{\"plus\":[\"a\"],\"minus\":[\"a\"]}}]}";

/// Thread 0 runs `main` on the tag `a` of kind export, and holds nothing: everybody may add the tag.
pub const EXPORTED: &str =
    "{\"version\":2,\"tags\":[{\"name\":\"a\",\"kind\":\"export\"}],\"tree\":[],\"pipes\":[],\"threads\":[{\"run\":\"main\",\"args\":[{\"tag\":\"a\"}],\"caps\":{\"plus\":[],\"minus\":[]}}]}";

/// Thread 0 runs `main` on a public pipe.
pub const ONE_PIPE: &str =
    "{\"version\":1,\"tags\":[],\"tree\":[],\"pipes\":[{\"name\":\"p\",\"label\":\"{}/{}\"}],\"threads\":[{\"run\":\"main\",\"args\":[{\"pipe\":\"p\"}],\"caps\":{\"plus\":[],\"minus\":[]}}]}";
