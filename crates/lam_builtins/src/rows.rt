//! The rows of the table of built-in calls, as values.

ghost use Rattle.std.specs.Prelude.{◌≡◌, ℕ, length};
ghost use Rattle.lam_operators.specs.Words.{Word};
ghost use Rattle.lam_builtins.specs.Builtins.{row_by, row_of};
ghost use Rattle.lam_builtins.specs.Rows.{places_taken, answer_given, row_seen};

use crate::Builtin;
use crate::rows::Answers::{AsFirst, Nothing, Value};
use crate::rows::Arguments::{One, Three, Two, Zero};
use crate::rows::PlainType::{Bytes, Caps, Dir, File, Int, Label, Pipe, Tag, Thread};

/// A type that is no class and no array. The rows of operators and of built-in calls speak of no others.
#[derive(Clone, Copy, Debug, PartialEq, Eq)]
pub enum PlainType {
    Int,
    Bool,
    Bytes,
    Tag,
    Label,
    Caps,
    File,
    Dir,
    Pipe,
    Thread,
}

/// What an argument may be: of one type, or of several.
#[derive(Clone, Copy)]
pub enum Takes {
    Exactly(PlainType),
    AnyArray,
    /// A class or an array.
    AnyObject,
    /// What has a label: a class, an array, a file, a directory or a pipe.
    AnyLabelled,
}

/// The arguments of a call, from the first on.
#[derive(Clone, Copy)]
pub enum Arguments {
    Zero,
    One(Takes),
    Two(Takes, Takes),
    Three(Takes, Takes, Takes),
}

/// The result of a call: a value of a type, none, or a value of the first argument's type.
#[derive(Clone, Copy)]
pub enum Answers {
    Value(PlainType),
    Nothing,
    AsFirst,
}

/// How a built-in call is called: its name, its arguments and its result.
#[derive(Clone, Copy)]
pub struct Row {
    pub name: &'static str,
    pub takes: Arguments,
    pub answer: Answers,
}

impl Arguments {
    /// How many there are, at most three.
    pub fn count(self) -> usize
        ensures { result ≡ length (places_taken {C = Word} self) }
    {
        match self {
            Arguments::Zero => 0,
            Arguments::One(_) => 1,
            Arguments::Two(_, _) => 2,
            Arguments::Three(_, _, _) => 3,
        }
    }
}

impl Builtin {
    /// Its row of the table.
    pub fn row(self) -> Row
        ensures words { row_seen Word result ≡ row_by Word self }
        ensures numbers { row_seen ℕ result ≡ row_by ℕ self }
    {
        let int = Takes::Exactly(Int);
        let bytes = Takes::Exactly(Bytes);
        let label = Takes::Exactly(Label);
        let caps = Takes::Exactly(Caps);
        let file = Takes::Exactly(File);
        let dir = Takes::Exactly(Dir);
        let pipe = Takes::Exactly(Pipe);
        let thread = Takes::Exactly(Thread);
        match self {
            Builtin::Len => called("len", One(Takes::AnyArray), Value(Int)),
            Builtin::Size => called("size", One(bytes), Value(Int)),
            Builtin::Byte => called("byte", Two(bytes, int), Value(Int)),
            Builtin::Slice => called("slice", Three(bytes, int, int), Value(Bytes)),
            Builtin::Cat => called("cat", Two(bytes, bytes), Value(Bytes)),
            Builtin::Text => called("text", One(int), Value(Bytes)),
            Builtin::Number => called("number", One(bytes), Value(Int)),
            Builtin::MyLabel => called("my_label", Zero, Value(Label)),
            Builtin::MyCaps => called("my_caps", Zero, Value(Caps)),
            Builtin::Root => called("root", Zero, Value(Dir)),
            Builtin::LabelOf => called("label_of", One(Takes::AnyLabelled), Value(Label)),
            Builtin::Copy => called("copy", Two(Takes::AnyObject, label), AsFirst),
            Builtin::Mint => called("mint", Zero, Value(Tag)),
            Builtin::Say => called("say", One(bytes), Nothing),
            Builtin::MakeFile => called("make_file", Three(dir, bytes, label), Value(File)),
            Builtin::MakeDir => called("make_dir", Three(dir, bytes, label), Value(Dir)),
            Builtin::OpenFile => called("open_file", Two(dir, bytes), Value(File)),
            Builtin::OpenDir => called("open_dir", Two(dir, bytes), Value(Dir)),
            Builtin::Remove => called("remove", Two(dir, bytes), Nothing),
            Builtin::Read => called("read", Three(file, int, int), Value(Bytes)),
            Builtin::Length => called("length", One(file), Value(Int)),
            Builtin::Append => called("append", Two(file, bytes), Nothing),
            Builtin::Cut => called("cut", Two(file, int), Nothing),
            Builtin::MakePipe => called("make_pipe", One(label), Value(Pipe)),
            Builtin::Send => called("send", Two(pipe, bytes), Nothing),
            Builtin::SendCaps => called("send_caps", Two(pipe, caps), Nothing),
            Builtin::Receive => called("receive", One(pipe), Value(Bytes)),
            Builtin::ReceiveCaps => called("receive_caps", One(pipe), Value(Caps)),
            Builtin::Join => called("join", One(thread), Value(Int)),
        }
    }
}

fn called(name: &'static str, takes: Arguments, answer: Answers) -> Row
    ensures words { row_seen Word result ≡ row_of name.now (places_taken takes) (answer_given answer) }
    ensures numbers { row_seen ℕ result ≡ row_of name.now (places_taken takes) (answer_given answer) }
{
    Row {
        name,
        takes,
        answer,
    }
}
