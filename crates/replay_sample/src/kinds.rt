// The kinds of cases, and how many of each kind are right.
use crate::parts::split_word;

// In the order of their numbers, and of what is told of them.
#[derive(Clone, Copy)]
pub enum Kind {
    Floor,
    Root,
    Tree,
    Link,
    ManyBody,
    Collide,
    Tick,
    Step,
}

const KINDS: [Kind; 8] = [
    Kind::Floor,
    Kind::Root,
    Kind::Tree,
    Kind::Link,
    Kind::ManyBody,
    Kind::Collide,
    Kind::Tick,
    Kind::Step,
];

impl Kind {
    // By the number that a case begins with.
    pub fn of(case: &[u8]) -> Option<Kind> {
        let (number, _) = split_word(case);
        KINDS.into_iter().find(|kind| *kind as u64 == number)
    }

    fn name(self) -> &'static [u8] {
        match self {
            Kind::Floor => b"floors",
            Kind::Root => b"roots",
            Kind::Tree => b"trees",
            Kind::Link => b"Link",
            Kind::ManyBody => b"ManyBody",
            Kind::Collide => b"Collide",
            Kind::Tick => b"ticks",
            Kind::Step => b"steps",
        }
    }
}

// How many cases of each kind there are, and how many of them are right.
#[derive(Drop)]
pub struct Tally {
    right: [u64; KINDS.len()],
    all: [u64; KINDS.len()],
}

impl Tally {
    pub fn new() -> Tally {
        Tally {
            right: [0; KINDS.len()],
            all: [0; KINDS.len()],
        }
    }

    pub fn count(&mut self, kind: Kind, right: bool) {
        let k = kind as usize;
        self.all[k] = self.all[k].saturating_add(1);
        if right {
            self.right[k] = self.right[k].saturating_add(1);
        }
    }

    // How many of all cases of a kind are right.
    fn report(&self, kind: Kind) {
        let k = kind as usize;
        io::write_all(1, kind.name());
        io::write_all(1, b" ");
        io::print_decimal(1, self.right[k]);
        io::write_all(1, b" of ");
        io::print_decimal(1, self.all[k]);
        io::write_all(1, b"\n");
    }

    pub fn report_all(&self) {
        for kind in KINDS {
            self.report(kind);
        }
    }
}
