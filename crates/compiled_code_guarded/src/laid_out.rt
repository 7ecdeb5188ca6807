//! Static layouts, which show that a unit of code is guarded without any rounds.
//!
//! A *layout* is a table of shapes, one for each address. A shape has the known kinds of operands and of locals in
//! scope, and the reference that was just tested. A compiler knows the shapes from the tree, by whatever way an address
//! is reached. In a layout each operation finds what it needs and leads to shapes that follow. So a layout bounds what
//! the rounds of `guarded_code` find at each address. They never break, no operand is of a known kind that its
//! operation does not take, and each access finds its reference tested by its rule.
//!
//! - `specs/Layouts`: shapes, what follows a shape, and layouts.
//!
//! A layout is enough for code whose accesses stand right behind their barriers. No verifier has to find it.

ghost use Rattle.compiled_code_guarded.specs.Layouts.{LaidOutIsGuarded};

/// A unit that has a layout has good targets, its rounds end with descriptions, all operands are of kinds that their
/// operations take, and each access finds its reference tested by its rule.
pub fn laid_out_units_are_guarded()
    ensures { LaidOutIsGuarded }
{}
