//! The acting context, as the monitor sees it.

ghost use Rattle.std.specs.Prelude.{◌≡◌, reverse};

use capabilities::Caps;
use flow_labels::Label;
use lam_value::Name;
use std::marker::Model;

/// What the monitor reads of the acting context.
#[derive(Drop)]
pub struct Acting<'a> {
    label: &'a Label,
    caps: &'a Caps,
    depth: u32,
    first: bool,
    held: &'a [Name],
}

impl<'a> Model for Acting<'a> {
    ghost use Rattle.std.specs.Prelude.{reverse};
    ghost use Rattle.std.specs.Coded.{codes};
    ghost use Rattle.flow_labels.specs.Tags.{coded_tags};
    ghost use Rattle.lam_machine_rows.specs.Acting.{Acting};

    ghost Value = { Acting };

    ghost coded = { Prim.hlevel (codes, coded_tags) };

    ghost view = { λ a. record { label = a.label.now; caps = a.caps.now; depth = a.depth; first = a.first; held = reverse a.held.now } };
}

impl<'a> Acting<'a> {
    /// A context at a label with capabilities, at a depth of regions, whether it is its thread's first one, and the
    /// monitors that it took, the last one last.
    pub fn new(
        label: &'a Label,
        caps: &'a Caps,
        depth: u32,
        first: bool,
        held: &'a [Name],
    ) -> Acting<'a>
        ensures label { result.label ≡ label.now }
        ensures caps { result.caps ≡ caps.now }
        ensures depth { result.depth ≡ depth }
        ensures first { result.first ≡ first }
        ensures held { result.held ≡ reverse held.now }
    {
        Acting {
            label,
            caps,
            depth,
            first,
            held,
        }
    }

    /// The label at which it acts.
    pub fn label(&self) -> &Label
        ensures { result.now ≡ self.now.label }
    {
        self.label
    }

    /// Its capabilities.
    pub fn caps(&self) -> &Caps
        ensures { result.now ≡ self.now.caps }
    {
        self.caps
    }

    /// How many regions it stands in.
    pub fn depth(&self) -> u32
        ensures { result ≡ self.now.depth }
    {
        self.depth
    }

    /// Whether it is its thread's first context.
    pub fn is_first(&self) -> bool
        ensures { result ≡ self.now.first }
    {
        self.first
    }

    /// The monitors that it took, the last one last.
    pub fn held(&self) -> &[Name]
        ensures { reverse result.now ≡ self.now.held }
    {
        self.held
    }
}
