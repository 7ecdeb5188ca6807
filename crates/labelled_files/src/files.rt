//! Directories and files by name.

ghost use Rattle.std.specs.Prelude.{◌≡◌, ◌≤◌, ◌<◌, ◌+◌, ◌↔◌, ℕ, IsTrue, List, [], IfOk, IfSome, OnOk, OnErr, Some, None, length, take, drop, is_some, unwrap_or, slice_get, cond, false};
ghost use Rattle.std.specs.Result.{MatchResult};
ghost use Rattle.std.specs.Option.{option_copied, option_map};
ghost use Rattle.std.specs.Map.{lookup};
ghost use Rattle.std.specs.FinMap.{insert};
ghost use Rattle.indexmap.specs.IndexMap.{spare};
ghost use Rattle.lam_value.specs.Homes as homes;
ghost use Rattle.lam_value.specs.Homes.{Home, home_of, name_of, count_in, raised, IsAboveZero, IsListing};
ghost use Rattle.labelled_files.specs.Entries.{text_eq, name_of_kind, entry_of};
ghost use Rattle.labelled_files.specs.Seen.{dirs_of, files_of, at, shown, held, SameDirs, SameFiles};
ghost use Rattle.lam_value.specs.Alike.{is_shown};
ghost use Rattle.lam_value.specs.declared.names.Name.{Name};
ghost use Rattle.lam_value.specs.Names.{name_eq};
ghost use Rattle.labelled_files.specs.Trees as tree;
ghost use Rattle.labelled_files.specs.Trees.{public_home, root_alone, lives_as, target_at, bytes_at, next_name, with_file, with_dir, placed, with_count, without_entry, with_more, with_first, changed_at, joined, most_entries, most_files, most_bytes, AreBytes, IsSound, AreSeenAlike};
ghost use Rattle.labelled_files.specs.declared.files.FileFault.TheVariants.{NoMemory as no_memory};

use crate::both::both;
use crate::contents::{Contents, first_bytes, last_bytes};
use crate::directory::{Directory, ENTRY_LIMIT, EntryKind, Target, is_entry_name};
use indexmap::IndexMap;
use lam_value::{Counters, HomeCounts, Label, Name, NoMemory, Same, Whole, same_maps};
use std::alloc::{AllocError, AllocFailed, Global};
use std::marker::Model;

/// The number of files and directories that one home may make.
pub const HOME_LIMIT: u64 = 65_536;

/// Why nothing is made. Everything is then as it was.
#[derive(Clone, Copy, Debug, PartialEq, Eq)]
pub enum FileFault {
    /// No entry may have this name: see [`is_entry_name`].
    BadName,
    /// The directory has an entry of this name, of either kind.
    Exists,
    /// The directory has 4,096 entries.
    DirFull,
    /// The home has made 65,536 files and directories.
    HomeFull,
    /// Memory ran out.
    NoMemory,
}

impl From<NoMemory> for FileFault {
    ghost from_gives = { λ _ e. e ≡ no_memory };

    fn from(_e: NoMemory) -> FileFault {
        FileFault::NoMemory
    }
}

impl From<AllocError> for FileFault {
    ghost from_gives = { λ _ e. e ≡ no_memory };

    fn from(_e: AllocError) -> FileFault {
        FileFault::NoMemory
    }
}

impl<T: Drop> From<AllocFailed<T>> for FileFault {
    ghost from_gives = { λ _ e. e ≡ no_memory };

    fn from(_e: AllocFailed<T>) -> FileFault {
        FileFault::NoMemory
    }
}

type Dirs = IndexMap<Name, Directory>;

type FileMap = IndexMap<Name, Contents>;

/// Directories and files by name, with a counter for each home, a pair of a maker's label and an own label.
///
/// A call on a name that does not live as the kind that the call is about answers as for an empty one, and
/// changes nothing there.
#[derive(Drop)]
pub struct Files {
    dirs: Dirs,
    files: FileMap,
    counters: Counters,
    root: Name,
}

impl Model for Files {
    ghost use Rattle.labelled_files.specs.Trees.{Tree, coded_tree, IsSound};

    ghost Value = { Tree };

    ghost coded = { coded_tree };

    ghost use Rattle.labelled_files.specs.Seen.{tree_of};

    ghost view = { λ f. tree_of f.dirs.entries f.files.entries f.counters f.root };

    ghost invariant = { λ f. IsSound (tree_of f.dirs.entries f.files.entries f.counters f.root) };
}

impl Files {
    /// The root alone: an empty directory, the first thing of the public home.
    ///
    /// # Errors
    ///
    /// `NoMemory` where memory is refused.
    pub fn new(alloc: Global) -> Result<Files, NoMemory>
        ensures { IfOk result (λ f. f ≡ root_alone) }
    {
        let (root, (dirs, counters)) = both(root_name(alloc), root_ground(alloc))?;
        Ok(Files {
            dirs,
            files: IndexMap::new(alloc),
            counters,
            root,
        })
    }

    /// The name of the root, a directory.
    pub fn root(&self) -> &Name
        ensures { result.now ≡ self.now.root }
    {
        &self.root
    }

    /// Whether a file, or a directory, of this name lives.
    pub fn lives(&self, n: &Name, kind: EntryKind) -> bool
        ensures { result ≡ lives_as kind self.now n.now }
    {
        match kind {
            EntryKind::File => self.files.contains_key(n),
            EntryKind::Dir => self.dirs.contains_key(n),
        }
    }

    /// The number that the next file or directory of a home gets: how many it has made, at most `HOME_LIMIT`.
    pub fn next(&self, maker: &Label, own: &Label) -> u64
        ensures value { result ≡ count_in self.now.counts (home_of maker.now own.now) }
        ensures bound { result ≤ most_files }
    {
        self.counters.next(maker, own)
    }

    /// Makes an empty file of a home, at the home's next number, and lists it last in a directory.
    ///
    /// # Errors
    ///
    /// The first of these that holds, in this order: `BadName`, `Exists`, `DirFull`, `HomeFull`. Where none
    /// holds, `NoMemory` where memory is refused.
    pub fn make_file(
        &mut self,
        dir: &Name,
        entry: &[u8],
        maker: &Label,
        own: &Label,
    ) -> Result<Name, FileFault>
        ensures fault { MatchResult result (λ _. tree.first_fault self.old dir.now entry.now (home_of maker.now own.now) ≡ None) (λ e. e ≡ unwrap_or (tree.first_fault self.old dir.now entry.now (home_of maker.now own.now)) no_memory) }
        ensures name { IfOk result (λ n. n ≡ next_name self.old (home_of maker.now own.now)) }
        ensures ok { OnOk result (self.new ≡ with_file self.old dir.now entry.now (home_of maker.now own.now)) }
        ensures err { OnErr result (self.new ≡ self.old) }
    {
        let number = self.next(maker, own);
        if let Some(fault) = self.fault_at(dir, entry, number) {
            return Err(fault);
        }
        let name = Name::of(maker, own, number)?;
        match add_file(
            &mut self.dirs,
            &mut self.files,
            &mut self.counters,
            dir,
            entry,
            &name,
        ) {
            Ok(()) => return Ok(name),
            Err(_) => {
                drop(name);
                return Err(FileFault::NoMemory);
            }
        }
    }

    /// Makes an empty directory of a home, at the home's next number, and lists it last in a directory.
    ///
    /// # Errors
    ///
    /// As of [`Files::make_file`].
    pub fn make_dir(
        &mut self,
        dir: &Name,
        entry: &[u8],
        maker: &Label,
        own: &Label,
    ) -> Result<Name, FileFault>
        ensures fault { MatchResult result (λ _. tree.first_fault self.old dir.now entry.now (home_of maker.now own.now) ≡ None) (λ e. e ≡ unwrap_or (tree.first_fault self.old dir.now entry.now (home_of maker.now own.now)) no_memory) }
        ensures name { IfOk result (λ n. n ≡ next_name self.old (home_of maker.now own.now)) }
        ensures ok { OnOk result (self.new ≡ with_dir self.old dir.now entry.now (home_of maker.now own.now)) }
        ensures err { OnErr result (self.new ≡ self.old) }
    {
        let number = self.next(maker, own);
        if let Some(fault) = self.fault_at(dir, entry, number) {
            return Err(fault);
        }
        let name = Name::of(maker, own, number)?;
        match add_dir(&mut self.dirs, &mut self.counters, dir, entry, &name) {
            Ok(()) => return Ok(name),
            Err(_) => {
                drop(name);
                return Err(FileFault::NoMemory);
            }
        }
    }

    /// Puts an empty file or directory under a name that is given, and lists it last in a directory.
    ///
    /// The name is of a thing that its home has made, and that does not live here: so files and directories
    /// are put back, one by one, after their counters.
    ///
    /// # Errors
    ///
    /// The first of these that holds, in this order: `BadName`, `Exists`, `DirFull`. Where none holds,
    /// `NoMemory` where memory is refused.
    pub fn place(
        &mut self,
        dir: &Name,
        entry: &[u8],
        kind: EntryKind,
        name: Name,
    ) -> Result<(), FileFault>
        requires no_file { lives_as EntryKind.File self.old name ≡ false }
        requires no_dir { lives_as EntryKind.Dir self.old name ≡ false }
        requires below { name.n < count_in self.old.counts (home_of name.maker name.own) }
        ensures fault { MatchResult result (λ _. tree.place_fault self.old dir.now entry.now ≡ None) (λ e. e ≡ unwrap_or (tree.place_fault self.old dir.now entry.now) no_memory) }
        ensures ok { OnOk result (self.new ≡ placed self.old dir.now entry.now kind name) }
        ensures err { OnErr result (self.new ≡ self.old) }
    {
        let done = self.place_named(dir, entry, kind, &name);
        drop(name);
        done
    }

    fn place_named(
        &mut self,
        dir: &Name,
        entry: &[u8],
        kind: EntryKind,
        name: &Name,
    ) -> Result<(), FileFault>
        requires no_file { lives_as EntryKind.File self.old name.now ≡ false }
        requires no_dir { lives_as EntryKind.Dir self.old name.now ≡ false }
        requires below { name.now.n < count_in self.old.counts (home_of name.now.maker name.now.own) }
        ensures fault { MatchResult result (λ _. tree.place_fault self.old dir.now entry.now ≡ None) (λ e. e ≡ unwrap_or (tree.place_fault self.old dir.now entry.now) no_memory) }
        ensures ok { OnOk result (self.new ≡ placed self.old dir.now entry.now kind name.now) }
        ensures err { OnErr result (self.new ≡ self.old) }
    {
        if let Some(fault) = self.fault_at(dir, entry, 0) {
            return Err(fault);
        }
        match kind {
            EntryKind::File => {
                add_file(
                    &mut self.dirs,
                    &mut self.files,
                    &mut self.counters,
                    dir,
                    entry,
                    name,
                )?;
                return Ok(());
            }
            EntryKind::Dir => {
                add_dir(&mut self.dirs, &mut self.counters, dir, entry, name)?;
                return Ok(());
            }
        }
    }

    /// Lets a home have made so many files and directories at least.
    ///
    /// # Errors
    ///
    /// `NoMemory` where memory is refused; everything is then as it was.
    pub fn raise_counter(&mut self, maker: &Label, own: &Label, n: u64) -> Result<(), NoMemory>
        requires { n ≤ most_files }
        ensures ok { OnOk result (self.new ≡ with_count self.old (home_of maker.now own.now) n) }
        ensures err { OnErr result (self.new ≡ self.old) }
    {
        self.counters.raise(maker, own, n)
    }

    /// Why nothing can be made of a home in a directory, want of memory aside.
    pub fn first_fault(
        &self,
        dir: &Name,
        entry: &[u8],
        maker: &Label,
        own: &Label,
    ) -> Option<FileFault>
        ensures { result ≡ tree.first_fault self.now dir.now entry.now (home_of maker.now own.now) }
    {
        self.fault_at(dir, entry, self.next(maker, own))
    }

    /// Why nothing can be made at a number.
    fn fault_at(&self, dir: &Name, entry: &[u8], number: u64) -> Option<FileFault>
        ensures { result ≡ tree.fault_at self.now dir.now entry.now number }
    {
        if !is_entry_name(entry) {
            return Some(FileFault::BadName);
        }
        if self.target(dir, entry).is_some() {
            return Some(FileFault::Exists);
        }
        if self.entry_count(dir) == ENTRY_LIMIT {
            return Some(FileFault::DirFull);
        }
        if number == HOME_LIMIT {
            return Some(FileFault::HomeFull);
        }
        None
    }

    fn target(&self, dir: &Name, entry: &[u8]) -> Option<&Target>
        ensures { option_copied result ≡ target_at self.now dir.now entry.now }
    {
        match self.dirs.get(dir) {
            None => None,
            Some(directory) => directory.target(entry),
        }
    }

    fn entry_count(&self, dir: &Name) -> usize
        ensures { result ≡ length (tree.entries_at self.now dir.now) }
    {
        match self.dirs.get(dir) {
            None => 0,
            Some(directory) => directory.len(),
        }
    }

    /// The name that an entry leads to, or `None` exactly where no entry of that name and kind is there.
    pub fn look_up(&self, dir: &Name, entry: &[u8], kind: EntryKind) -> Option<&Name>
        ensures { option_copied result ≡ name_of_kind kind (target_at self.now dir.now entry.now) }
    {
        match self.target(dir, entry) {
            None => None,
            Some(target) => name_as(target, kind),
        }
    }

    /// The entry at a place of a directory, by the order of their making, with what it leads to, or `None`
    /// exactly where the directory has no entry there.
    pub fn entry_at(&self, dir: &Name, i: u64) -> Option<(&[u8], EntryKind, &Name)>
        ensures { option_map (λ e. entry_of e.0.now e.1 e.2.now) result ≡ slice_get (tree.entries_at self.now dir.now) i }
    {
        match self.dirs.get(dir) {
            None => None,
            Some(directory) => directory.entry_at(i as usize),
        }
    }

    /// Takes an entry away, and says whether it was there. What it led to lives on.
    pub fn remove(&mut self, dir: &Name, entry: &[u8]) -> bool
        ensures there { result ≡ is_some (target_at self.old dir.now entry.now) }
        ensures new { self.new ≡ without_entry self.old dir.now entry.now }
    {
        match self.dirs.get_mut(dir) {
            None => return false,
            Some(directory) => return directory.leave(entry),
        }
    }

    /// The bytes of a file from the place `at` on, at most `n`, and none past its end.
    pub fn read(&self, f: &Name, at: u64, n: u64) -> &[u8]
        ensures { result.now ≡ take n (drop at (bytes_at self.now f.now)) }
    {
        let rest = last_bytes(self.bytes(f), at as usize);
        first_bytes(rest, n as usize)
    }

    /// The number of bytes of a file, at most `FILE_LIMIT`.
    pub fn length(&self, f: &Name) -> u64
        ensures value { result ≡ length (bytes_at self.now f.now) }
        ensures bound { result ≤ most_bytes }
    {
        self.bytes(f).len() as u64
    }

    fn bytes(&self, f: &Name) -> &[u8]
        ensures value { result.now ≡ bytes_at self.now f.now }
        ensures few { length result.now ≤ most_bytes }
    {
        match self.files.get(f) {
            None => &[],
            Some(contents) => contents.bytes(),
        }
    }

    /// Puts bytes at the end of a file: the front of them that fits into `FILE_LIMIT`.
    ///
    /// # Errors
    ///
    /// `NoMemory` where memory is refused; everything is then as it was.
    pub fn append(&mut self, f: &Name, bytes: &[u8]) -> Result<(), NoMemory>
        ensures ok { OnOk result (self.new ≡ with_more self.old f.now bytes.now) }
        ensures err { OnErr result (self.new ≡ self.old) }
    {
        match self.files.get_mut(f) {
            None => return Ok(()),
            Some(contents) => return contents.append(bytes),
        }
    }

    /// Keeps the first `len` bytes of a file, and all of a file that is no longer.
    pub fn cut(&mut self, f: &Name, len: u64)
        ensures { self.new ≡ with_first self.old f.now len }
    {
        match self.files.get_mut(f) {
            None => return,
            Some(contents) => return contents.cut(len as usize),
        }
    }

    /// Whether two have equal files, directories and counters, and the same root.
    pub fn same(&self, other: &Files) -> bool
        ensures { IsTrue result ↔ (self.now ≡ other.now) }
    {
        same_ground(&self.root, &self.counters, &other.root, &other.counters)
            && same_things(&self.dirs, &self.files, &other.dirs, &other.files, None)
    }

    /// Whether the entries of each directory and the bytes of each file whose label flows to the observer's are
    /// equal in two.
    pub fn same_seen(&self, other: &Files, observer: &Label) -> bool
        ensures { IsTrue result ↔ AreSeenAlike observer.now self.now other.now }
    {
        same_things(
            &self.dirs,
            &self.files,
            &other.dirs,
            &other.files,
            Some(observer),
        )
    }

    /// Whether two have equal counters at each home whose maker's label flows to the observer's.
    pub fn same_counters(&self, other: &Files, observer: &Label) -> bool
        ensures { IsTrue result ↔ homes.AreSeenAlike observer.now self.now.counts other.now.counts }
    {
        self.counters.same_seen(&other.counters, observer)
    }

    /// The homes that have made a file or directory here or whose counter was raised, each once, with their
    /// counters.
    pub fn counters(&self) -> HomeCounts<'_>
        ensures list { IsListing result self.now.counts }
        ensures above { IsAboveZero self.now.counts }
    {
        self.counters.facts();
        self.counters.homes()
    }

    /// The home at a place of a list of these, as its maker's label and its own label, with its counter, or `None`
    /// exactly past the last.
    ///
    /// Each call is of a list of its own, and no clause says that two of them are in one order: who goes through
    /// all homes takes [`Files::counters`] once.
    pub fn counter_at(&self, i: u64) -> Option<(&Label, &Label, u64)>
        ensures value { (hs : List (Home × ℕ)) × (IsListing hs self.now.counts × (option_map (λ e. (home_of e.0.now e.1.now, e.2)) result ≡ slice_get hs i)) }
        ensures above { IfSome result (λ e. 0 < e.2) }
    {
        self.counters().get(i)
    }

    /// What holds of all files and directories. The call does nothing: its clause is for its caller's proof.
    pub fn facts(&self)
        ensures { IsSound self.now }
    {
        let _ = &self.dirs;
    }

    /// What each file holds are bytes. The call does nothing: its clause is for its caller's proof.
    pub fn hold_bytes(&self)
        ensures { (n : Name) → AreBytes (bytes_at self.now n) }
    {
        let _ = &self.files;
    }

    /// Equal files and directories.
    ///
    /// # Errors
    ///
    /// `NoMemory` where memory is refused.
    pub fn copy(&self) -> Result<Files, NoMemory>
        ensures { IfOk result (λ f. f ≡ self.now) }
    {
        let ((counters, root), (dirs, files)) = both(
            copied_ground(&self.counters, &self.root),
            copied_things(&self.dirs, &self.files),
        )?;
        Ok(Files {
            dirs,
            files,
            counters,
            root,
        })
    }
}

/// The name of the root: the first thing of the public home.
fn root_name(alloc: Global) -> Result<Name, NoMemory>
    ensures { IfOk result (λ n. n ≡ name_of public_home 0) }
{
    let public = Label::public(alloc);
    Name::of(&public, &public, 0)
}

/// The root's directory alone, and its home's counter.
fn root_ground(alloc: Global) -> Result<(Dirs, Counters), NoMemory>
    ensures dirs { IfOk result (λ r. dirs_of r.0.entries ≡ root_alone.dirs) }
    ensures counters { IfOk result (λ r. r.1 ≡ root_alone.counts) }
{
    let root = root_name(alloc)?;
    let counters = root_counter(&root);
    both(root_dir(root), counters)
}

/// The counter of the root's home alone.
fn root_counter(root: &Name) -> Result<Counters, NoMemory>
    requires { root.now ≡ name_of public_home 0 }
    ensures { IfOk result (λ c. c ≡ root_alone.counts) }
{
    let mut counters = Counters::new(root.allocator());
    match counters.draw(root.maker(), root.own(), 0) {
        Ok(()) => Ok(counters),
        Err(e) => {
            drop(counters);
            Err(e)
        }
    }
}

/// The root's directory alone, which is empty.
fn root_dir(root: Name) -> Result<Dirs, NoMemory>
    requires { root ≡ name_of public_home 0 }
    ensures { IfOk result (λ d. dirs_of d.entries ≡ root_alone.dirs) }
{
    let mut dirs = IndexMap::new(root.allocator());
    match dirs.reserve(1) {
        Ok(()) => {
            put_dir(&mut dirs, root);
            Ok(dirs)
        }
        Err(_) => {
            drop(dirs);
            drop(root);
            Err(NoMemory)
        }
    }
}

/// The name of a target, where it is of that kind.
fn name_as(target: &Target, kind: EntryKind) -> Option<&Name>
    ensures { option_copied result ≡ name_of_kind kind (Some target.now) }
{
    if target.kind == kind {
        Some(&target.name)
    } else {
        None
    }
}

/// Adds an empty file. The last step that can fail is the listing, and what comes after it has its room.
fn add_file(
    dirs: &mut Dirs,
    files: &mut FileMap,
    counters: &mut Counters,
    dir: &Name,
    entry: &[u8],
    name: &Name,
) -> Result<(), NoMemory>
    requires room { name.now.n < most_files }
    requires few { length (at dirs.old.entries dir.now) < most_entries }
    requires fresh { lookup (text_eq entry.now) (at dirs.old.entries dir.now) ≡ None }
    ensures dirs { OnOk result (dirs_of dirs.new.entries ≡ changed_at (dirs_of dirs.old.entries) dir.now (joined entry.now EntryKind.File name.now)) }
    ensures files { OnOk result (files_of files.new.entries ≡ insert (files_of files.old.entries) name.now []) }
    ensures counters { OnOk result (counters.new ≡ raised counters.old (home_of name.now.maker name.now.own) (name.now.n + 1)) }
    ensures same_dirs { OnErr result (dirs_of dirs.new.entries ≡ dirs_of dirs.old.entries) }
    ensures same_files { OnErr result (files_of files.new.entries ≡ files_of files.old.entries) }
    ensures same_counters { OnErr result (counters.new ≡ counters.old) }
{
    files.reserve(1)?;
    let (key, target) = leads_to(EntryKind::File, name)?;
    match list(dirs, counters, dir, entry, target) {
        Ok(()) => {
            put_file(files, key);
            Ok(())
        }
        Err(e) => {
            drop(key);
            Err(e)
        }
    }
}

/// Puts in an empty file, for which there is room.
fn put_file(files: &mut FileMap, name: Name)
    requires { 1 ≤ spare files.old }
    ensures { files_of files.new.entries ≡ insert (files_of files.old.entries) name [] }
{
    let alloc = name.allocator();
    let Ok(before) = files.insert(name, Contents::new(alloc)) else {
        unreachable!()
    };
    drop(before);
}

/// Adds an empty directory. The last step that can fail is the listing, and what comes after it has its room.
fn add_dir(
    dirs: &mut Dirs,
    counters: &mut Counters,
    dir: &Name,
    entry: &[u8],
    name: &Name,
) -> Result<(), NoMemory>
    requires room { name.now.n < most_files }
    requires few { length (at dirs.old.entries dir.now) < most_entries }
    requires fresh { lookup (text_eq entry.now) (at dirs.old.entries dir.now) ≡ None }
    ensures dirs { OnOk result (dirs_of dirs.new.entries ≡ insert (changed_at (dirs_of dirs.old.entries) dir.now (joined entry.now EntryKind.Dir name.now)) name.now []) }
    ensures counters { OnOk result (counters.new ≡ raised counters.old (home_of name.now.maker name.now.own) (name.now.n + 1)) }
    ensures same_dirs { OnErr result (dirs_of dirs.new.entries ≡ dirs_of dirs.old.entries) }
    ensures same_counters { OnErr result (counters.new ≡ counters.old) }
{
    dirs.reserve(1)?;
    let (key, target) = leads_to(EntryKind::Dir, name)?;
    match list(dirs, counters, dir, entry, target) {
        Ok(()) => {
            put_dir(dirs, key);
            Ok(())
        }
        Err(e) => {
            drop(key);
            Err(e)
        }
    }
}

/// Puts in an empty directory, for which there is room.
fn put_dir(dirs: &mut Dirs, name: Name)
    requires { 1 ≤ spare dirs.old }
    ensures { dirs_of dirs.new.entries ≡ insert (dirs_of dirs.old.entries) name [] }
{
    let alloc = name.allocator();
    let Ok(before) = dirs.insert(name, Directory::new(alloc)) else {
        unreachable!()
    };
    drop(before);
}

/// A name's key, and a target that leads to the name.
fn leads_to(kind: EntryKind, name: &Name) -> Result<(Name, Target), NoMemory>
    ensures key { IfOk result (λ r. r.0 ≡ name.now) }
    ensures target { IfOk result (λ r. r.1 ≡ record { kind = kind; name = name.now }) }
{
    let (key, name) = both(name.copy(), name.copy())?;
    Ok((key, Target { kind, name }))
}

/// Lists a target last in a directory, and counts it. The map keeps its room.
fn list(
    dirs: &mut Dirs,
    counters: &mut Counters,
    dir: &Name,
    entry: &[u8],
    target: Target,
) -> Result<(), NoMemory>
    requires room { target.name.n < most_files }
    requires few { length (at dirs.old.entries dir.now) < most_entries }
    requires fresh { lookup (text_eq entry.now) (at dirs.old.entries dir.now) ≡ None }
    ensures dirs { OnOk result (dirs_of dirs.new.entries ≡ changed_at (dirs_of dirs.old.entries) dir.now (joined entry.now target.kind target.name)) }
    ensures counters { OnOk result (counters.new ≡ raised counters.old (home_of target.name.maker target.name.own) (target.name.n + 1)) }
    ensures same_dirs { OnErr result (dirs_of dirs.new.entries ≡ dirs_of dirs.old.entries) }
    ensures same_counters { OnErr result (counters.new ≡ counters.old) }
    ensures room { spare dirs.old ≤ spare dirs.new }
{
    match dirs.get_mut(dir) {
        None => return count_alone(counters, target),
        Some(directory) => return list_in(directory, counters, entry, target),
    }
}

/// Lets a name's home have made what has that name.
fn count_name(counters: &mut Counters, name: &Name) -> Result<(), NoMemory>
    requires room { name.now.n < most_files }
    ensures ok { OnOk result (counters.new ≡ raised counters.old (home_of name.now.maker name.now.own) (name.now.n + 1)) }
    ensures err { OnErr result (counters.new ≡ counters.old) }
{
    counters.raise(name.maker(), name.own(), name.n() + 1)
}

/// Counts a target, and lets it go: there is no directory for it.
fn count_alone(counters: &mut Counters, target: Target) -> Result<(), NoMemory>
    requires room { target.name.n < most_files }
    ensures ok { OnOk result (counters.new ≡ raised counters.old (home_of target.name.maker target.name.own) (target.name.n + 1)) }
    ensures err { OnErr result (counters.new ≡ counters.old) }
{
    let counted = count_name(counters, &target.name);
    drop(target);
    counted
}

fn list_in(
    directory: &mut Directory,
    counters: &mut Counters,
    entry: &[u8],
    target: Target,
) -> Result<(), NoMemory>
    requires room { target.name.n < most_files }
    requires few { length (shown directory.old) < most_entries }
    requires fresh { lookup (text_eq entry.now) (shown directory.old) ≡ None }
    ensures entries { OnOk result (shown directory.new ≡ joined entry.now target.kind target.name (shown directory.old)) }
    ensures counters { OnOk result (counters.new ≡ raised counters.old (home_of target.name.maker target.name.own) (target.name.n + 1)) }
    ensures same_entries { OnErr result (shown directory.new ≡ shown directory.old) }
    ensures same_counters { OnErr result (counters.new ≡ counters.old) }
{
    match counted_text(directory, counters, entry, &target) {
        Ok(text) => {
            directory.join(text, target);
            Ok(())
        }
        Err(e) => {
            drop(target);
            Err(e)
        }
    }
}

/// Makes room for one more entry and counts its target, and gives the entry's text.
fn counted_text(
    directory: &mut Directory,
    counters: &mut Counters,
    entry: &[u8],
    target: &Target,
) -> Result<Vec<u8>, NoMemory>
    requires { target.now.name.n < most_files }
    ensures text { IfOk result (λ t. t.items ≡ entry.now) }
    ensures counters { OnOk result (counters.new ≡ raised counters.old (home_of target.now.name.maker target.now.name.own) (target.now.name.n + 1)) }
    ensures room { OnOk result (1 ≤ spare directory.new.entries) }
    ensures same_entries { shown directory.new ≡ shown directory.old }
    ensures same_counters { OnErr result (counters.new ≡ counters.old) }
{
    directory.reserve()?;
    let text = Vec::from_slice(target.name.allocator(), entry)?;
    count_name(counters, &target.name)?;
    Ok(text)
}

impl Same<Whole> for Directory {
    ghost IsSame = { λ d e. shown d ≡ shown e };

    fn same(&self, other: &Directory) -> bool {
        Directory::same(self, other)
    }
}

impl Same<Whole> for Contents {
    ghost IsSame = { λ c d. held c ≡ held d };

    fn same(&self, other: &Contents) -> bool {
        self.bytes() == other.bytes()
    }
}

fn same_ground(root: &Name, counters: &Counters, other: &Name, others: &Counters) -> bool
    ensures { IsTrue result ↔ ((root.now ≡ other.now) × (counters.now ≡ others.now)) }
{
    root.same(other) && counters.same(others)
}

/// Whether the entries of directories and the bytes of files are equal where the observer sees.
fn same_things(
    dirs: &Dirs,
    files: &FileMap,
    other_dirs: &Dirs,
    other_files: &FileMap,
    observer: Option<&Label>,
) -> bool
    ensures { IsTrue result ↔ (SameDirs (λ n. is_shown (option_copied observer.entry) n.own) dirs.now.entries other_dirs.now.entries × SameFiles (λ n. is_shown (option_copied observer.entry) n.own) files.now.entries other_files.now.entries) }
{
    same_maps::<_, _, Whole>(dirs, other_dirs, observer)
        && same_maps::<_, _, Whole>(files, other_files, observer)
}

fn copied_ground(counters: &Counters, root: &Name) -> Result<(Counters, Name), NoMemory>
    ensures counters { IfOk result (λ r. r.0 ≡ counters.now) }
    ensures root { IfOk result (λ r. r.1 ≡ root.now) }
{
    both(counters.copy(), root.copy())
}

fn copied_things(dirs: &Dirs, files: &FileMap) -> Result<(Dirs, FileMap), NoMemory>
    ensures dirs { IfOk result (λ r. dirs_of r.0.entries ≡ dirs_of dirs.now.entries) }
    ensures files { IfOk result (λ r. files_of r.1.entries ≡ files_of files.now.entries) }
{
    both(copied_dirs(dirs), copied_files(files))
}

fn copied_dirs(dirs: &Dirs) -> Result<Dirs, NoMemory>
    ensures { IfOk result (λ new. dirs_of new.entries ≡ dirs_of dirs.now.entries) }
{
    let mut copy = IndexMap::new(*dirs.allocator());
    for at in 0..dirs.len() {
        let Some((name, directory)) = dirs.get_index(at) else {
            unreachable!()
        };
        let Ok((name, directory)) = copied_dir(name, directory) else {
            drop(copy);
            return Err(NoMemory);
        };
        let Ok(()) = put(&mut copy, name, directory) else {
            drop(copy);
            return Err(NoMemory);
        };
    }
    Ok(copy)
}

fn copied_files(files: &FileMap) -> Result<FileMap, NoMemory>
    ensures { IfOk result (λ new. files_of new.entries ≡ files_of files.now.entries) }
{
    let mut copy = IndexMap::new(*files.allocator());
    for at in 0..files.len() {
        let Some((name, contents)) = files.get_index(at) else {
            unreachable!()
        };
        let Ok((name, contents)) = copied_file(name, contents) else {
            drop(copy);
            return Err(NoMemory);
        };
        let Ok(()) = put(&mut copy, name, contents) else {
            drop(copy);
            return Err(NoMemory);
        };
    }
    Ok(copy)
}

/// Puts in what has a name.
fn put<V: Drop>(map: &mut IndexMap<Name, V>, name: Name, value: V) -> Result<(), NoMemory>
    ensures { OnOk result ((q : Name) → lookup (name_eq q) map.new.entries ≡ cond (name_eq name q) (Some value) (lookup (name_eq q) map.old.entries)) }
{
    let before = map.insert(name, value)?;
    drop(before);
    Ok(())
}

fn copied_dir(name: &Name, directory: &Directory) -> Result<(Name, Directory), NoMemory>
    ensures name { IfOk result (λ r. r.0 ≡ name.now) }
    ensures entries { IfOk result (λ r. shown r.1 ≡ shown directory.now) }
{
    both(name.copy(), directory.copy())
}

fn copied_file(name: &Name, contents: &Contents) -> Result<(Name, Contents), NoMemory>
    ensures name { IfOk result (λ r. r.0 ≡ name.now) }
    ensures bytes { IfOk result (λ r. held r.1 ≡ held contents.now) }
{
    both(name.copy(), contents.copy())
}
