//! Numbers that are noted once each, in memory that was taken before.
ghost use Rattle.std.specs.Prelude.{◌≡◌, ◌<◌, ◌≤◌, ◌==◌, ◌∷◌, ◌↔◌, [], ℕ, All, Contains, IfSome, length};
ghost use Rattle.std.specs.List.{list_any};
ghost use Rattle.std.specs.List.Sorted.{IsStrictlyIncreasing};
ghost use Rattle.cut_on_text.specs.Made.{first_uses, place_in};
ghost use Rattle.cut_on_text.specs.Rosters.{IsRoster};

use std::alloc::Global;
use std::marker::Model;

/// Numbers below a count, each once, in the order in which they were noted. The number of one is its place there.
#[derive(Debug, Drop)]
pub(crate) struct Roster {
    table: Vec<usize>,
    order: Vec<usize>,
}

impl Model for Roster {
    ghost use Rattle.std.specs.Prelude.{◌≤◌, length, vec_capacity};
    ghost use Rattle.cut_on_text.specs.Rosters.{IsRoster, RosterState};

    ghost Value = { RosterState };

    ghost view = { λ roster. record { count = length roster.table.items; order = roster.order.items } };

    ghost invariant = { λ roster. IsRoster roster.table.items roster.order.items
        × (length roster.table.items ≤ vec_capacity roster.order) };
}

impl Roster {
    /// Room for all numbers below `count`, of which none was noted. `None`: out of memory.
    pub(crate) fn new(alloc: Global, count: usize) -> Option<Roster>
        ensures { IfSome result (λ roster. roster ≡ record { count = count; order = [] }) }
    {
        Some(Roster {
            table: vec![in alloc; 0usize; count].ok()?,
            order: Vec::with_capacity(alloc, count).ok()?,
        })
    }

    /// The numbers in the order in which they were noted.
    pub(crate) fn order(&self) -> &[usize]
        ensures order { result.now ≡ self.now.order }
        ensures within { All (λ one. one < self.now.count) self.now.order }
        ensures few { length self.now.order ≤ self.now.count }
    {
        &self.order
    }

    /// Whether one was noted.
    fn has(&self, one: usize) -> bool
        requires { one < self.now.count }
        ensures { result ≡ list_any (λ x. x == one) self.now.order }
    {
        let number = self.table[one];
        number < self.order.len() && self.order[number] == one
    }

    /// The place of one among those that were noted, or how many these are.
    pub(crate) fn number(&self, one: usize) -> usize
        requires { one < self.now.count }
        ensures { result ≡ place_in self.now.order one }
    {
        if self.has(one) {
            return self.table[one];
        }
        self.order.len()
    }

    /// Forgets all that were noted.
    pub(crate) fn clear(&mut self)
        ensures { self.new ≡ record { count = self.old.count; order = [] } }
    {
        self.order.clear();
    }

    /// Notes one after the others, unless it is there.
    pub(crate) fn note(&mut self, one: usize)
        requires { one < self.old.count }
        ensures { self.new ≡ record { count = self.old.count; order = first_uses self.old.order (one ∷ []) } }
    {
        if self.has(one) {
            return;
        }
        let number = self.order.len();
        self.order.push_reserved(one);
        self.table[one] = number;
    }

    /// Notes each of these.
    pub(crate) fn note_all(&mut self, those: &[u32])
        requires { All (λ one. one < self.old.count) those.now }
        ensures { self.new ≡ record { count = self.old.count; order = first_uses self.old.order those.now } }
    {
        for one in those {
            self.note(*one as usize);
        }
    }

    /// Puts those that were noted in the order of their size.
    pub(crate) fn sort(&mut self)
        ensures count { self.new.count ≡ self.old.count }
        ensures rises { IsStrictlyIncreasing self.new.order }
        ensures same { (k : ℕ) → Contains self.new.order k ↔ Contains self.old.order k }
    {
        self.order.sort_unstable();
        number_anew(&self.order, &mut self.table);
    }
}

/// Puts the place of each into the table.
fn number_anew(order: &[usize], table: &mut [usize])
    requires within { All (λ one. one < length table.old) order.now }
    requires rises { IsStrictlyIncreasing order.now }
    ensures long { length table.new ≡ length table.old }
    ensures ok { IsRoster table.new order.now }
{
    for place in 0..order.len() {
        table[order[place]] = place;
    }
}
