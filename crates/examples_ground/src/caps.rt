//! Capabilities, with the changes that they allow and their texts.

use crate::labels::known_names;
use crate::sets::has;
use capabilities::{Caps, CapsFault, TagKind, caps_text, kind_of, parse_caps, public_of};
use flow_labels::{Denied, Label, Rule, TagNames};
use std::alloc::Global;
use tag_sets::{NoMemory, TagId, TagSet};

/// The label `{#3,#4}/{}`.
fn secret(alloc: Global) -> Result<Label, NoMemory> {
    let s = TagSet::from_slice(alloc, &[TagId(3), TagId(4)])?;
    Ok(Label {
        s,
        i: TagSet::empty(alloc),
    })
}

/// Whether a change is forbidden for tag 4.
fn forbids(denied: Option<Denied>, rule: Rule) -> bool {
    let tag = TagId(4);
    denied == Some(Denied { rule, tag })
}

/// Whether capabilities over one tag of two allow no change, down or up.
fn are_too_few(caps: &Caps, secret: &Label, public: &Label) -> bool {
    let none = Caps::none(caps.allocator());
    let down = forbids(caps.change_rule(&none, secret, public), Rule::DropS);
    down & forbids(caps.change_rule(&none, public, secret), Rule::AddS)
}

/// Whether a release uses the minus of both tags and no plus.
fn drops_both(release: &Caps) -> bool {
    has(&release.minus, &[TagId(3), TagId(4)]) & release.plus.tags().is_empty()
}

/// Whether a change is allowed with what it uses, which is both tags.
fn is_allowed(
    caps: &Caps,
    release: &Caps,
    secret: &Label,
    public: &Label,
) -> Result<bool, NoMemory> {
    let held = caps.join(release)?;
    let none = Caps::none(caps.allocator());
    let covers = held.covers(&none, caps).is_none();
    let allowed = covers & held.change_rule(&none, secret, public).is_none();
    Ok(allowed & drops_both(release))
}

/// Whether a change needs both tags, which what it uses has.
fn needs_both(caps: &Caps, secret: &Label, public: &Label) -> Result<bool, NoMemory> {
    let release = Caps::used(secret, public)?;
    is_allowed(caps, &release, secret, public)
}

/// Whether capabilities allow less than this release takes, and with it all of it.
fn lack(caps: &Caps, secret: &Label, public: &Label) -> Result<bool, NoMemory> {
    Ok(are_too_few(caps, secret, public) & needs_both(caps, secret, public)?)
}

/// Whether capabilities over tag 3 allow less than a release of 3 and 4 takes.
fn are_joined(caps: &Caps) -> Result<bool, NoMemory> {
    let secret = secret(caps.allocator())?;
    let public = Label::public(caps.allocator());
    lack(caps, &secret, &public)
}

/// Tag 3 with both signs.
fn both(alloc: Global) -> Result<Caps, NoMemory> {
    let none = Caps::none(alloc);
    none.with_both(TagId(3))
}

/// Whether these capabilities are tag 3 with both signs.
fn are_both(caps: &Caps) -> Result<bool, NoMemory> {
    let held = has(&caps.plus, &[TagId(3)]) & has(&caps.minus, &[TagId(3)]);
    Ok(held & are_joined(caps)?)
}

/// Whether tag 3 is held with both signs.
fn has_both_signs(alloc: Global) -> Result<bool, NoMemory> {
    let caps = both(alloc)?;
    are_both(&caps)
}

#[test]
fn both_signs_of_a_tag(rt: HostRuntime) {
    assert!(rt; has_both_signs(rt.alloc()) == Ok(true));
}

/// Whether these are the public capabilities of three tags, one of each kind.
fn are_public(public: &Caps) -> bool {
    has(&public.plus, &[TagId(1)]) & has(&public.minus, &[TagId(2)])
}

/// The label of one secret.
fn secret_of(alloc: Global, tag: TagId) -> Label {
    Label {
        s: TagSet::one(alloc, tag),
        i: TagSet::empty(alloc),
    }
}

/// Whether anybody adds the secret 1, and nobody drops it who does not hold its minus.
fn adds_freely(public: &Caps) -> bool {
    let none = Caps::none(public.allocator());
    let bare = Label::public(public.allocator());
    let secret = secret_of(public.allocator(), TagId(1));
    let denied = Denied {
        rule: Rule::DropS,
        tag: TagId(1),
    };
    let up = none.change_rule(public, &bare, &secret).is_none();
    up & (none.change_rule(public, &secret, &bare) == Some(denied))
}

/// Whether anybody drops the vouching tag 2, and nobody adds it who does not hold its plus.
fn drops_freely(public: &Caps) -> bool {
    let none = Caps::none(public.allocator());
    let bare = Label::public(public.allocator());
    let vouched = Label {
        s: TagSet::empty(public.allocator()),
        i: TagSet::one(public.allocator(), TagId(2)),
    };
    let denied = Denied {
        rule: Rule::AddI,
        tag: TagId(2),
    };
    let down = none.change_rule(public, &vouched, &bare).is_none();
    down & (none.change_rule(public, &bare, &vouched) == Some(denied))
}

/// Whether no capabilities cover the public ones, and no more than those.
fn covers_public(public: &Caps) -> Result<bool, NoMemory> {
    let none = Caps::none(public.allocator());
    let more = public.with_both(TagId(1))?;
    let denied = Denied {
        rule: Rule::Caps,
        tag: TagId(1),
    };
    let same = none.covers(public, public).is_none();
    Ok(same & (none.covers(public, &more) == Some(denied)))
}

/// Whether public capabilities are held by all.
fn held_by_all(alloc: Global) -> Result<bool, NoMemory> {
    let kinds = [TagKind::Read, TagKind::Export, TagKind::Integrity];
    let public = public_of(alloc, kinds.as_slice())?;
    let free = adds_freely(&public) & drops_freely(&public);
    Ok(are_public(&public) & free & covers_public(&public)?)
}

#[test]
fn public_plus(rt: HostRuntime) {
    assert!(rt; held_by_all(rt.alloc()) == Ok(true));
}

/// Whether three words name the three kinds, and another none.
fn names_kinds() -> bool {
    let read = kind_of("read") == Some(TagKind::Read);
    let export = kind_of("export") == Some(TagKind::Export);
    let integrity = kind_of("integrity") == Some(TagKind::Integrity);
    read & export & integrity & kind_of("write").is_none()
}

#[test]
fn words_name_kinds(rt: HostRuntime) {
    assert!(rt; names_kinds());
}

/// Whether capabilities have this text.
fn has_text(caps: &Caps, names: &TagNames, want: &str) -> Result<bool, NoMemory> {
    let text = caps_text(caps, names)?;
    Ok(text.as_str() == want)
}

/// Whether capabilities are printed with a tag that has no name.
fn are_numbered(caps: &Caps, names: &TagNames) -> Result<bool, NoMemory> {
    let minted = caps.with_both(TagId(12))?;
    has_text(&minted, names, "+{a,#12}-{a,b,#12}")
}

/// Whether capabilities are printed, also with a tag that has no name.
fn are_printed(caps: &Caps, names: &TagNames) -> Result<bool, NoMemory> {
    Ok(are_numbered(caps, names)? & has_text(caps, names, "+{a}-{a,b}")?)
}

/// Whether capabilities are read and printed.
fn are_read(names: &TagNames) -> Option<bool> {
    let caps = parse_caps("+{a,a}-{b,a}", names).ok()?;
    are_printed(&caps, names).ok()
}

/// Whether a text is refused, for this reason.
fn is_refused(text: &str, names: &TagNames, fault: CapsFault) -> bool {
    parse_caps(text, names).err() == Some(fault)
}

/// Whether three texts are refused.
fn are_refused(names: &TagNames) -> bool {
    let begin = is_refused("{a}-{}", names, CapsFault::BadCaps { at: 0 });
    let cut = is_refused("+{a}-{", names, CapsFault::BadCaps { at: 6 });
    begin & cut & is_refused("+{a}-{a,c}", names, CapsFault::NoTag { at: 8 })
}

/// Whether capabilities are read with names, and others refused.
fn reads(names: &TagNames) -> Option<bool> {
    Some(are_read(names)? & are_refused(names))
}

/// Whether capabilities are read where three names are known, and others refused.
fn reads_known(alloc: Global) -> Option<bool> {
    let names = known_names(alloc)?;
    reads(&names)
}

#[test]
fn capabilities_are_read_and_printed(rt: HostRuntime) {
    assert!(rt; reads_known(rt.alloc()) == Some(true));
}
