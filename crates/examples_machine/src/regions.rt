//! Regions that are entered, left and refused, and copies to higher labels.

use crate::run::{Given, notes, shows};
use crate::worlds::{BARE, EXPORTED, HOLDS_BOTH, HOLDS_NOTHING, HOLDS_PLUS};
use lam_builtins::Builtin;
use lam_bytecode::{ArgKind, Op};
use lam_value::Kind;
use std::test::Fail;
use written_code::{Constant, Unit, UnitHead, Written};

/// Enters a region at the tag that it is given, with a copy of a number, and returns the number.
const ENTERS: Written<'static> = Written {
    units: &[
        Unit {
            head: UnitHead::Function {
                name: "main",
                takes: &[ArgKind::Tag],
            },
            locals: 2,
            ops: &[
                Op::Const(0),
                Op::Store(1),
                Op::Load(0),
                Op::MakeLabel {
                    secrecy: 1,
                    integrity: 0,
                },
                Op::NoCaps,
                Op::Load(1),
                Op::EnterRegion(0),
                Op::Load(1),
                Op::Return,
            ],
        },
        Unit {
            head: UnitHead::Region {
                captures: 1,
                catch_at: 4,
            },
            locals: 2,
            ops: &[
                Op::Const(1),
                Op::System(Builtin::Say),
                Op::Pop,
                Op::LeaveRegion,
                Op::Store(1),
                Op::LeaveRegion,
            ],
        },
    ],
    constants: &[Constant::Int(1), Constant::Bytes("in")],
    classes: &[],
};

/// A region that the thread may not enter is refused to it, and the thread ends by that.
#[test]
fn entry_without_plus_is_refused(rt: HostRuntime) -> Result<(), Fail> {
    let given = Given {
        code: ENTERS,
        world: HOLDS_NOTHING,
        turns: &[(0, 8)],
    };
    shows(
        &rt,
        given,
        "{}/{}",
        "t0 {}/{} enter {a}/{} caps +{}-{} region 0 (1) = refused AddS a\nt0 {}/{} end Denied = done\ndone\n",
    )
}

/// Where the tag is of kind export, the thread enters the region with no capability of its own.
#[test]
fn exported_tag_is_added_by_all(rt: HostRuntime) -> Result<(), Fail> {
    let given = Given {
        code: ENTERS,
        world: EXPORTED,
        turns: &[(0, 13)],
    };
    shows(
        &rt,
        given,
        "{}/{}",
        "t0 {}/{} enter {a}/{} caps +{}-{} region 0 (1) = entered\nt0 {}/{} end value 1 = done\ndone\n",
    )
}

/// Divides its copy of a number by zero in a region, and again where that is caught.
pub const FAULTS: Written<'static> = Written {
    units: &[
        Unit {
            head: UnitHead::Function {
                name: "main",
                takes: &[],
            },
            locals: 1,
            ops: &[
                Op::Const(0),
                Op::Store(0),
                Op::MakeLabel {
                    secrecy: 0,
                    integrity: 0,
                },
                Op::NoCaps,
                Op::Load(0),
                Op::EnterRegion(0),
                Op::Load(0),
                Op::Return,
            ],
        },
        Unit {
            head: UnitHead::Region {
                captures: 1,
                catch_at: 5,
            },
            locals: 2,
            ops: &[
                Op::Load(0),
                Op::Const(1),
                Op::Div,
                Op::Store(0),
                Op::LeaveRegion,
                Op::Store(1),
                Op::Const(0),
                Op::Const(1),
                Op::Div,
                Op::Store(0),
                Op::LeaveRegion,
            ],
        },
    ],
    constants: &[Constant::Int(1), Constant::Int(0)],
    classes: &[],
};

/// The fault of the body is caught, that of the catch block is suppressed, and the thread goes on after the region.
#[test]
fn fault_in_body_then_in_catch(rt: HostRuntime) -> Result<(), Fail> {
    let given = Given {
        code: FAULTS,
        world: BARE,
        turns: &[(0, 17)],
    };
    shows(
        &rt,
        given,
        "{}/{}",
        "t0 {}/{} enter {}/{} caps +{}-{} region 0 (1) = entered\nt0 {}/{} caught Zero = done\nt0 {}/{} suppressed Zero = done\nt0 {}/{} end value 1 = done\ndone\n",
    )
}

/// A region that enters the public one below with a copy of its number.
const OUTER: Unit<'static> = Unit {
    head: UnitHead::Region {
        captures: 1,
        catch_at: 5,
    },
    locals: 2,
    ops: &[
        Op::MakeLabel {
            secrecy: 0,
            integrity: 0,
        },
        Op::NoCaps,
        Op::Load(0),
        Op::EnterRegion(1),
        Op::LeaveRegion,
        Op::Store(1),
        Op::LeaveRegion,
    ],
};

/// A region that says its number.
const INNER: Unit<'static> = Unit {
    head: UnitHead::Region {
        captures: 1,
        catch_at: 5,
    },
    locals: 2,
    ops: &[
        Op::Load(0),
        Op::System(Builtin::Text),
        Op::System(Builtin::Say),
        Op::Pop,
        Op::LeaveRegion,
        Op::Store(1),
        Op::LeaveRegion,
    ],
};

/// Enters the two regions with the capability to drop the tag that it is given.
const RELEASES: Written<'static> = Written {
    units: &[
        Unit {
            head: UnitHead::Function {
                name: "main",
                takes: &[ArgKind::Tag],
            },
            locals: 2,
            ops: &[
                Op::Const(0),
                Op::Store(1),
                Op::Load(0),
                Op::MakeLabel {
                    secrecy: 1,
                    integrity: 0,
                },
                Op::NoCaps,
                Op::Load(0),
                Op::WithMinus,
                Op::Load(1),
                Op::EnterRegion(0),
                Op::Const(1),
                Op::Return,
            ],
        },
        OUTER,
        INNER,
    ],
    constants: &[Constant::Int(7), Constant::Int(0)],
    classes: &[],
};

/// Enters them with no capability.
const LACKS_MINUS: Written<'static> = Written {
    units: &[
        Unit {
            head: UnitHead::Function {
                name: "main",
                takes: &[ArgKind::Tag],
            },
            locals: 2,
            ops: &[
                Op::Const(0),
                Op::Store(1),
                Op::Load(0),
                Op::MakeLabel {
                    secrecy: 1,
                    integrity: 0,
                },
                Op::NoCaps,
                Op::Load(1),
                Op::EnterRegion(0),
                Op::Const(1),
                Op::Return,
            ],
        },
        OUTER,
        INNER,
    ],
    constants: &[Constant::Int(7), Constant::Int(0)],
    classes: &[],
};

/// Who does not see the secret region sees a release from it. Without the capability there is none: who sees the secret
/// region sees that the public one is refused in it.
#[test]
fn declassification_is_released(rt: HostRuntime) -> Result<(), Fail> {
    let given = Given {
        code: RELEASES,
        world: HOLDS_BOTH,
        turns: &[(0, 21)],
    };
    shows(
        &rt,
        given,
        "{}/{}",
        "t0 {}/{} enter {a}/{} caps +{}-{a} region 0 (7) = entered\nrelease t0 enter {}/{} caps +{}-{} depth 2 region 1 (7) by +{}-{a}\nt0 {}/{} say \"7\" = done\nt0 {}/{} leave = done\nt0 {}/{} end value 0 = done\ndone\n",
    )?;
    let given = Given {
        code: LACKS_MINUS,
        world: HOLDS_BOTH,
        turns: &[(0, 16)],
    };
    shows(
        &rt,
        given,
        "{a}/{}",
        "t0 {}/{} enter {a}/{} caps +{}-{} region 0 (7) = entered\nt0 {a}/{} enter {}/{} caps +{}-{} region 1 (7) = refused DropS a\nt0 {a}/{} caught Denied = done\nt0 {a}/{} leave = done\nt0 {}/{} end value 0 = done\ndone\n",
    )?;
    shows(
        &rt,
        given,
        "{}/{}",
        "t0 {}/{} enter {a}/{} caps +{}-{} region 0 (7) = entered\nt0 {}/{} end value 0 = done\ndone\n",
    )
}

/// Makes an array of two numbers, copies it to the label of the tag that it is given, and writes past the copy's end.
const COPIES: Written<'static> = Written {
    units: &[Unit {
        head: UnitHead::Function {
            name: "main",
            takes: &[ArgKind::Tag],
        },
        locals: 3,
        ops: &[
            Op::Const(0),
            Op::NewArray(Kind::Int),
            Op::Store(1),
            Op::Load(1),
            Op::Load(0),
            Op::MakeLabel {
                secrecy: 1,
                integrity: 0,
            },
            Op::System(Builtin::Copy),
            Op::Store(2),
            Op::Load(2),
            Op::Const(0),
            Op::Const(1),
            Op::WriteBarrier(2),
            Op::PutElement,
            Op::Const(1),
            Op::Return,
        ],
    }],
    constants: &[Constant::Int(2), Constant::Int(1)],
    classes: &[],
};

/// A copy at a higher label is of the lower one's making, and an index past the end is a fault.
#[test]
fn copy_up_and_bad_index(rt: HostRuntime) -> Result<(), Fail> {
    let given = Given {
        code: COPIES,
        world: HOLDS_PLUS,
        turns: &[(0, 14)],
    };
    shows(
        &rt,
        given,
        "{}/{}",
        "t0 {}/{} new array int 2 = arr<{}/{}|{}/{}|0>[2]\nt0 {}/{} copy arr<{}/{}|{}/{}|0>[2] to {a}/{} = arr<{}/{}|{a}/{}|0>[2]\nt0 {}/{} end Index = done\ndone\n",
    )
}

/// An audit names the turn of the release with the capability that it took, and that of the refusal.
#[test]
fn releases_and_refusals_are_noted(rt: HostRuntime) -> Result<(), Fail> {
    let given = Given {
        code: RELEASES,
        world: HOLDS_BOTH,
        turns: &[(0, 21)],
    };
    notes(&rt, given, "12 t0 {a}/{} enter {}/{} by +{}-{a}\n")?;
    let given = Given {
        code: LACKS_MINUS,
        world: HOLDS_BOTH,
        turns: &[(0, 16)],
    };
    notes(&rt, given, "10 t0 {a}/{} refused DropS a\n")
}
