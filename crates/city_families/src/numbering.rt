//! The numbers that a feature gives to the vertices that it names.
ghost use Rattle.std.specs.Prelude.{◌≡◌, ◌↔◌, ◌<◌, ◌++◌, [], ◌∷◌, ℕ, List, IsTrue, IfErr, OnOk, length};
ghost use Rattle.city_families.specs.Copied.{Extends};
ghost use Rattle.city_families.specs.Numbered.{AreNumbered, HasNumber};

use byte_streams::Fault;

/// Numbers for the vertices that a feature names, by first use. Of the document's vertices only those
/// that have a number are looked at.
#[derive(Drop)]
pub struct Numbering {
    /// For each vertex of the document the number that it may have.
    pub table: Vec<usize>,
    /// The vertices that have one: each has its place here as its number.
    pub order: Vec<usize>,
}

impl Numbering {
    /// Gives the vertex the next number, unless it has one. The only fault is [`Fault::Memory`].
    pub fn note(&mut self, vertex: usize) -> Result<(), Fault>
        requires { vertex < length self.old.table.items }
        ensures long { length self.new.table.items ≡ length self.old.table.items }
        ensures ok { OnOk result ((uses : List ℕ)
            → AreNumbered uses self.old.table.items self.old.order.items
            → AreNumbered (uses ++ vertex ∷ []) self.new.table.items self.new.order.items) }
        ensures kept { OnOk result (Extends self.old.table.items self.old.order.items
            self.new.table.items self.new.order.items) }
        ensures has { OnOk result (HasNumber self.new.table.items self.new.order.items vertex) }
        ensures fault { IfErr result (λ fault. fault ≡ Fault.Memory) }
    {
        if self.has(vertex) {
            return Ok(());
        }
        let number = self.order.len();
        self.order.push(vertex)?;
        self.table[vertex] = number;
        Ok(())
    }

    /// Whether the vertex has a number.
    fn has(&self, vertex: usize) -> bool
        requires { vertex < length self.now.table.items }
        ensures { IsTrue result ↔ HasNumber self.now.table.items self.now.order.items vertex }
    {
        let number = self.table[vertex];
        number < self.order.len() && self.order[number] == vertex
    }
}
