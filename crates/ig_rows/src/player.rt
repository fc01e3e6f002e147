use ig_play::{Told, World};
use ig_run::Hand;
use std::alloc::Global;

/// A worker with its name.
#[derive(Drop)]
pub struct Named {
    pub name: String,
    pub hand: Hand,
}

/// What a transcript expects of the call that it has made.
#[derive(Drop)]
pub struct Wanted {
    pub out: String,
    pub err: String,
    pub steps: String,
    pub has_steps: bool,
}

/// Where a transcript stands: its files, its workers, and the call that was made last, with what is expected of it.
#[derive(Drop)]
pub struct Player {
    pub alloc: Global,
    pub world: World,
    pub hands: Vec<Named>,
    pub told: Told,
    pub wanted: Wanted,
    pub is_open: bool,
    pub calls: u64,
}

fn nothing(alloc: Global) -> Told {
    Told {
        answer: String::new(alloc),
        out: String::new(alloc),
        err: String::new(alloc),
        steps: String::new(alloc),
    }
}

impl Wanted {
    pub fn new(alloc: Global) -> Wanted {
        Wanted {
            out: String::new(alloc),
            err: String::new(alloc),
            steps: String::new(alloc),
            has_steps: false,
        }
    }
}

impl Player {
    pub fn new(alloc: Global) -> Player {
        Player {
            alloc,
            world: World::new(alloc),
            hands: Vec::new(alloc),
            told: nothing(alloc),
            wanted: Wanted::new(alloc),
            is_open: false,
            calls: 0,
        }
    }

    /// A call was made that told this.
    pub fn open(&mut self, told: Told) {
        self.told = told;
        self.wanted = Wanted::new(self.alloc);
        self.is_open = true;
    }
}
