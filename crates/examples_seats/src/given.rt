//! Programs and a world that several examples share.

use crate::scenes::Given;

/// Thread 0 runs `main` on nothing, and holds nothing.
const BARE_WORLD: &str =
    "{\"version\":1,\"tags\":[],\"tree\":[],\"pipes\":[],\"threads\":[{\"run\":\"main\",\"args\":[],\"caps\":{\"plus\":[],\"minus\":[]}}]}";

/// A region whose body faults at its third turn, and whose catch block faults too.
///
/// A turn is an operation of the code, or a fault's way out. Before the region come `1`, the store, the label, no
/// capabilities and the capture, and then it is entered, by the turn of place 5. The body loads `x` and 0 and divides, at
/// 6, 7 and 8, and the fault is caught at 9. The catch block stores what it caught, loads 1 and 0 and divides, at 10 to
/// 13, and that fault is suppressed at 14. `x` is loaded at 15, and the thread ends at 16.
pub const FAULTS: Given<'static> = Given {
    program: "fn main(): int { let x: int = 1; region (label{;}, caps{}) [x] { x = x / 0; } catch (e) { x = 1 / 0; } return x; }",
    world: BARE_WORLD,
};

/// A loop without an end.
pub const ENDLESS: Given<'static> = Given {
    program: "fn main(): int { while (true) { } return 0; }",
    world: BARE_WORLD,
};
