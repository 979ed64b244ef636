// The one store into the instruction table. From `collect` on `Places` alone holds the table; its fields are private to this file, so whoever is
// handed it may read the words and store the next one, and nothing else. It is made with no place stored, and each store goes to the next place and raises
// that by one. So no place is stored into twice.
ghost use Rattle.std.specs.Prelude.{◌≡◌, [], ◌∷◌, ◌<◌, ◌+◌, length};
ghost use Rattle.combine.specs.Stores.{Stores};

use words::instr::Instruction;

// The table, and the next place: those below are stored, it and those behind are not.
#[derive(Drop)]
pub struct Places<'a> {
    table: &'a mut [u64],
    next: usize,
}

impl<'a> Places<'a> {
    pub fn over(table: &'a mut [u64]) -> Places<'a>
        ensures same_reference { result.table.ghost_name ≡ table.entry.ghost_name }
        ensures words { result.table.now ≡ table.entry.now }
        ensures at_start { result.next ≡ 0 }
    {
        Places { table, next: 0 }
    }

    pub fn words(&self) -> &[u64]
        ensures { result.now ≡ self.now.table.now }
    {
        self.table
    }

    pub fn next(&self) -> usize
        ensures { result ≡ self.now.next }
    {
        self.next
    }

    // The next place is not stored yet, and then it is.
    pub fn store(&mut self, w: Instruction)
        requires { self.old.next < length self.old.table.now }
        ensures { Stores self.old self.new (w.0 ∷ []) }
    {
        self.table[self.next] = w.0;
        self.next += 1;
    }
}
