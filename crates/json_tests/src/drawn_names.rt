//! Objects whose names look as if they were drawn, some with escapes, within one another or alone: a text is taken where
//! no two names of one object are made of the same characters.
use crate::chance::Chance;
use crate::texts::{expect_at, is_compacted, is_refused};
use byte_streams::Fault;
use std::alloc::{AllocError, Global};

/// The spellings of the first character of each name, and of the last one.
const FIRST: [&str; 2] = ["a", "\\u0061"];

const LAST: [&str; 4] = ["/", "\\/", "\\u002f", "\\u002F"];

/// How often something comes: once in so many, and never for one.
#[derive(Clone, Copy)]
struct OnceIn(u64);

/// A text of names of several spellings, the compact text of what it spells, and whether the names of each of its objects
/// are made of different characters.
#[derive(Drop)]
struct Drawn {
    chance: Chance,
    text: String,
    compact: String,
    are_apart: bool,
    repeated: OnceIn,
    escaped: OnceIn,
}

/// What stands in a name between its first character and its last one. Of a fourth of them the first eight bytes and the
/// last eight are the same; of another one an escape stands in the compact text, too.
fn middle(alloc: Global, number: u64) -> Result<String, AllocError> {
    match number % 4 {
        0 => format!(in alloc; "ttribute {number:05} attribute"),
        1 => format!(in alloc; "{number}"),
        2 => format!(in alloc; "ngl\u{e9} {number}"),
        _ => format!(in alloc; "\\n{number}"),
    }
}

impl Drawn {
    fn new(alloc: Global, seed: u64, repeated: OnceIn) -> Drawn {
        Drawn {
            chance: Chance { state: seed },
            text: String::new(alloc),
            compact: String::new(alloc),
            are_apart: true,
            repeated,
            escaped: OnceIn(1),
        }
    }

    fn comes(&mut self, often: OnceIn) -> bool {
        self.chance.below(often.0) == 1
    }

    fn put(&mut self, text: &str) -> Result<(), AllocError> {
        self.text.push_str(text)?;
        self.compact.push_str(text)
    }

    fn put_spelling(&mut self, spellings: &[&str]) -> Result<(), AllocError> {
        let plain = spellings.first().copied().unwrap_or("");
        let count = if self.comes(self.escaped) {
            spellings.len() as u64
        } else {
            1
        };
        let at = self.chance.below(count) as usize;
        self.text
            .push_str(spellings.get(at).copied().unwrap_or(plain))?;
        self.compact.push_str(plain)
    }

    /// The number of the name at a place after these: a new one, or one of these.
    fn number(&mut self, place: u64, before: &[u64]) -> u64 {
        if self.comes(self.repeated) {
            let at = self.chance.below(before.len() as u64) as usize;
            if let Some(number) = before.get(at) {
                return *number;
            }
        }
        let kinds = if self.escaped.0 > 1 { 4 } else { 3 };
        place.wrapping_mul(4).wrapping_add(self.chance.below(kinds))
    }

    /// Puts the name at a place after these, and notes whether it is another one than each of these.
    fn put_name(
        &mut self,
        alloc: Global,
        place: u64,
        before: &mut Vec<u64>,
    ) -> Result<(), AllocError> {
        let number = self.number(place, before);
        if before.iter().any(|other| *other == number) {
            self.are_apart = false;
        }
        before.push(number)?;
        self.put(if place == 0 { "\"" } else { ",\"" })?;
        self.put_spelling(&FIRST)?;
        self.put_middle(alloc, number)?;
        self.put_spelling(&LAST)?;
        self.put("\":")
    }

    fn put_middle(&mut self, alloc: Global, number: u64) -> Result<(), AllocError> {
        self.put(&middle(alloc, number)?)
    }

    /// Puts an object of so many names.
    fn put_object(&mut self, alloc: Global, count: u64) -> Result<(), AllocError> {
        let mut names = Vec::new(alloc);
        self.put("{")?;
        for place in 0..count {
            self.put_name(alloc, place, &mut names)?;
            self.put("1")?;
        }
        self.put("}")
    }

    /// The same, where a third of the members hold objects of up to eight names.
    fn put_outer(&mut self, alloc: Global, count: u64) -> Result<(), AllocError> {
        let mut names = Vec::new(alloc);
        let (own, others) = (self.escaping(), self.escaping());
        self.put("{")?;
        for place in 0..count {
            self.escaped = own;
            self.put_name(alloc, place, &mut names)?;
            self.escaped = others;
            self.put_value(alloc)?;
        }
        self.put("}")
    }

    fn put_value(&mut self, alloc: Global) -> Result<(), AllocError> {
        if self.chance.below(3) > 0 {
            return self.put("null");
        }
        let count = self.chance.below(9);
        self.put_object(alloc, count)
    }

    /// How often escapes stand in the names of an object.
    fn escaping(&mut self) -> OnceIn {
        match self.chance.below(4) {
            0 => OnceIn(1),
            1 => OnceIn(2),
            2 => OnceIn(9),
            _ => OnceIn(200),
        }
    }

    fn is_answered(&self, alloc: Global) -> bool {
        let text = self.text.as_bytes();
        if self.are_apart {
            is_compacted(alloc, text, self.compact.as_bytes())
        } else {
            is_refused(alloc, text, Fault::DuplicateName)
        }
    }
}

/// How many names there are in one object: on both sides of each number at which names are told apart in another way.
const COUNTS: [u64; 24] = [
    0, 1, 2, 3, 5, 6, 7, 8, 15, 16, 17, 18, 40, 41, 62, 63, 64, 65, 66, 300, 511, 512, 513, 600,
];

/// How often a name is repeated in an object of so many and those within it, so that about half of them have one.
fn repeating(seed: u64, count: u64) -> OnceIn {
    if seed % 3 == 0 {
        OnceIn(1)
    } else {
        OnceIn(count.wrapping_mul(2).wrapping_add(3))
    }
}

fn alone(alloc: Global, seed: u64, count: u64) -> Result<Drawn, AllocError> {
    let mut drawn = Drawn::new(alloc, seed, repeating(seed, count));
    drawn.escaped = drawn.escaping();
    drawn.put_object(alloc, count)?;
    Ok(drawn)
}

fn nested(alloc: Global, seed: u64, count: u64) -> Result<Drawn, AllocError> {
    let mut drawn = Drawn::new(alloc, seed, repeating(seed, count));
    drawn.put_outer(alloc, count)?;
    Ok(drawn)
}

/// How many texts were drawn that are taken, and that are refused.
#[derive(Clone, Copy)]
struct Seen {
    taken: u64,
    refused: u64,
}

impl Seen {
    /// Whether the text is answered as it should be.
    fn note(&mut self, alloc: Global, drawn: Result<Drawn, AllocError>) -> bool {
        let Ok(drawn) = drawn else {
            return false;
        };
        if drawn.are_apart {
            self.taken = self.taken.saturating_add(1);
        } else {
            self.refused = self.refused.saturating_add(1);
        }
        drawn.is_answered(alloc)
    }
}

#[test]
fn drawn_names_are_told_by_their_characters(rt: HostRuntime) {
    let mut seen = Seen {
        taken: 0,
        refused: 0,
    };
    for count in COUNTS {
        for seed in 0..40u64 {
            let holds = seen.note(rt.alloc(), alone(rt.alloc(), seed, count));
            expect_at(&rt, holds, seed as usize, b"alone");
            let holds = seen.note(rt.alloc(), nested(rt.alloc(), seed, count));
            expect_at(&rt, holds, seed as usize, b"nested");
        }
    }
    assert!(rt; seen.taken > 400 && seen.refused > 400);
}
