// What a table is told, what its seats know, and what each step tells.
use crate::book::Book;
use atomic_table::{Join, Play, Split, TableRule};
use lam_bytecode::Code;
use lam_machine_world::World;
use std::collections::LinkedList;

/// What a table is told once: the code and the start of its run.
#[derive(Drop)]
pub struct Given {
    pub code: Code,
    pub start: World,
}

// What a seat knows. No value of it is made.
pub struct View {
    pub alive: bool,
    pub code: Code,
    pub start: World,
    pub seen: LinkedList<Option<u32>>,
    pub told: LinkedList<Option<u32>>,
    pub mine: LinkedList<(u64, Option<u32>)>,
    pub drawn: u64,
    pub waits: bool,
    pub ticket: u64,
    pub acts: bool,
}

pub struct Law;

impl TableRule<Book, View, Given> for Law {
    ghost use Rattle.seat_host.specs.Law.{Keeps, newcomer};

    ghost holds = { Keeps };

    ghost first = { newcomer };
}

pub struct Look;

impl Play<Book, View> for Look {
    ghost use Rattle.seat_host.specs.Law.{Looks};

    ghost then = { Looks };
}

pub struct Draw;

impl Play<Book, View> for Draw {
    ghost use Rattle.seat_host.specs.Law.{Draws};

    ghost then = { Draws };
}

pub struct Serve;

impl Play<Book, View> for Serve {
    ghost use Rattle.seat_host.specs.Law.{Serves};

    ghost then = { Serves };
}

pub struct Finish;

impl Play<Book, View> for Finish {
    ghost use Rattle.seat_host.specs.Law.{Finishes};

    ghost then = { Finishes };
}

pub struct Fork;

impl Split<View> for Fork {
    ghost use Rattle.seat_host.specs.Law.{fresh};

    ghost left = { λ v. v };

    ghost right = { fresh };
}

pub struct Learn;

impl Play<Book, View> for Learn {
    ghost use Rattle.seat_host.specs.Law.{Learns};

    ghost then = { Learns };
}

pub struct Glue;

impl Join<View> for Glue {
    ghost use Rattle.seat_host.specs.Law.{joined, nobody};

    ghost both = { joined };

    ghost spent = { nobody };
}
