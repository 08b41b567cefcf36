use crate::random::Random;
use crate::shapes::{CORNERS, FACES, HEADER, SURFACES, Shape};
use itoa::Buffer;
use std::alloc::Global;

/// The bytes of a tile or a document, and the places of digits in it of which each may be any other.
///
/// It is made of texts in which some characters stand for others: `~` for a digit above 0, `?` for a
/// digit, `#` for one whose place is kept, `'` for one whose place is kept at times; `@` for the number
/// of the feature, `=` for that of the attribute; `&` for an index of a vertex; `<` and `>` for the
/// front digits of the feature's x and y.
#[derive(Drop)]
pub(crate) struct Tile {
    text: Vec<u8>,
    places: Vec<usize>,
    random: Random,
    number: u64,
    attribute: u64,
    first: u64,
    count: u32,
    east: u64,
    north: u64,
    is_spaced: bool,
    is_whole: bool,
}

impl Tile {
    fn new(alloc: Global, seed: u64, number: u64) -> Tile {
        Tile {
            text: Vec::new(alloc),
            places: Vec::new(alloc),
            random: Random::new(seed),
            number,
            attribute: 0,
            first: 0,
            count: 0,
            east: 0,
            north: 0,
            is_spaced: false,
            is_whole: true,
        }
    }

    /// A tile of features of this shape, of about so many bytes; none where there is no memory for it.
    /// Its number is in its translation.
    pub(crate) fn of_features(
        alloc: Global,
        shape: &Shape,
        (seed, number): (u64, u64),
        size: u32,
    ) -> Option<Tile> {
        let mut tile = Tile::new(alloc, seed, number);
        tile.fill(HEADER);
        tile.is_spaced = shape.is_spaced;
        for _ in 0..size {
            if tile.is_long(size) {
                break;
            }
            tile.push(b'\n');
            tile.feature(shape, size);
        }
        tile.fill(shape.end);
        tile.is_whole.then_some(tile)
    }

    /// A document of objects of this shape, on one line.
    pub(crate) fn of_objects(alloc: Global, shape: &Shape, seed: u64, size: u32) -> Option<Tile> {
        let mut tile = Tile::new(alloc, seed, 0);
        tile.fill(shape.start);
        for _ in 0..size {
            if tile.is_long(size / 4 * 3) {
                break;
            }
            tile.part();
            tile.feature(shape, size);
            tile.first = tile.first.wrapping_add(u64::from(tile.count));
        }
        tile.fill(shape.end);
        let count = tile.first;
        tile.list(shape.vertices, count);
        tile.fill("]}\n");
        tile.is_whole.then_some(tile)
    }

    pub(crate) fn bytes(&self) -> &[u8] {
        &self.text
    }

    /// Gives each of the kept digits another value. Not inlined, so that profiles tell of it.
    #[inline(never)]
    pub(crate) fn change(&mut self) {
        let mut random = self.random;
        for place in &self.places {
            if let Some(digit) = self.text.get_mut(*place) {
                *digit = random.other_digit(*digit);
            }
        }
        self.random = random;
    }

    /// Whether it has so many bytes, or no memory for them.
    fn is_long(&self, size: u32) -> bool {
        self.text.len() >= size as usize || !self.is_whole
    }

    fn feature(&mut self, shape: &Shape, size: u32) {
        self.number = self.number.wrapping_add(1);
        self.count = if shape.is_one_line {
            size / 32
        } else {
            self.vertex_count(shape)
        };
        self.east = self.random.below(999).wrapping_add(1);
        self.north = self.random.below(999).wrapping_add(1);
        let template = self.one_of(shape.features, '|');
        let vertices = self.one_of(shape.vertices, '\n');
        for byte in template.as_bytes() {
            self.expand(*byte, shape, vertices);
        }
    }

    /// Mostly few, and seldom many.
    fn vertex_count(&mut self, shape: &Shape) -> u32 {
        let quarter = self.random.below(1024);
        let half = quarter.wrapping_mul(quarter);
        let part = half.wrapping_mul(half) >> 20;
        let more = part.wrapping_mul(u64::from(shape.most)) >> 20;
        shape.least.wrapping_add((more & 0xffff) as u32)
    }

    /// A character of a feature's text: `$` stands for the attributes, `%` for the vertices, `^` for the
    /// surfaces of a shell, `*` for their semantics and `!` for a ring.
    fn expand(&mut self, byte: u8, shape: &Shape, vertices: &str) {
        let faces = u64::from(self.count / 5 * 2).max(1);
        match byte {
            b'$' => self.attributes(shape.attributes, shape.times),
            b'%' => self.list(vertices, u64::from(self.count)),
            b'^' => self.list(FACES, faces),
            b'*' => self.list(SURFACES, faces),
            b'!' => self.list(CORNERS, 4),
            _ => self.add(byte),
        }
    }

    fn attributes(&mut self, table: &str, times: u64) {
        for time in 0..times {
            self.attribute = time;
            self.rows(table);
        }
    }

    /// One of the texts of each row.
    fn rows(&mut self, table: &str) {
        for row in table.lines() {
            self.part();
            let text = self.one_of(row, '|');
            self.fill(text);
        }
    }

    /// So many items, each one of these texts.
    fn list(&mut self, items: &str, count: u64) {
        for _ in 0..count {
            self.part();
            let item = self.one_of(items, '|');
            self.fill(item);
        }
    }

    /// Begins an item or a member: with a comma, but for the first.
    fn part(&mut self) {
        if !matches!(self.text.last(), Some(b'[' | b'{')) {
            self.add(b',');
        }
    }

    /// One of four texts, or the text that stands alone.
    fn one_of<'a>(&mut self, texts: &'a str, between: char) -> &'a str {
        let place = (self.random.next() >> 62) as usize;
        texts.split(between).nth(place).unwrap_or(texts)
    }

    fn fill(&mut self, text: &str) {
        for byte in text.as_bytes() {
            self.add(*byte);
        }
    }

    fn add(&mut self, byte: u8) {
        match byte {
            b'~' => {
                let digit = self.random.first_digit();
                self.push(digit);
            }
            b'?' => self.digit(),
            b'#' => self.kept_digit(),
            b'\'' if self.random.below(4) == 0 => self.kept_digit(),
            b'\'' => self.digit(),
            b'@' => self.decimal(self.number),
            b'=' => self.decimal(self.attribute),
            b'<' => self.decimal(self.east),
            b'>' => self.decimal(self.north),
            b'&' => {
                let index = self.random.below(self.count).wrapping_add(self.first);
                self.decimal(index);
            }
            _ => self.push(byte),
        }
    }

    fn kept_digit(&mut self) {
        self.is_whole &= self.places.push(self.text.len()).is_ok();
        self.digit();
    }

    fn digit(&mut self) {
        let digit = self.random.digit();
        self.push(digit);
    }

    fn decimal(&mut self, number: u64) {
        let mut buffer = Buffer::new();
        let digits = buffer.format(number);
        self.is_whole &= self.text.extend_from_slice(digits.as_bytes()).is_ok();
    }

    fn push(&mut self, byte: u8) {
        self.is_whole &= self.text.push(byte).is_ok();
        if self.is_spaced && (byte == b',' || byte == b':') {
            self.is_whole &= self.text.push(b' ').is_ok();
        }
    }
}
