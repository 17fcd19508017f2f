//! How many groups there are, and how many an emission hands out.

ghost use Rattle.std.specs.Prelude.{◌≡◌, vec_capacity};
ghost use Rattle.cells.specs.Emits.{left, dropped};

/// The most groups that are held at a time.
pub const MAX_GROUPS: usize = 512;

/// Which groups are handed out: all of them, or the first so many (all, if fewer are held).
#[derive(Clone, Copy, PartialEq, Eq, Debug)]
pub enum EmitTo {
    All,
    First(usize),
}

impl EmitTo {
    /// How many of the groups held are handed out.
    pub fn count(self, held: usize) -> usize
        ensures { result ≡ dropped self held }
    {
        match self {
            EmitTo::All => held,
            EmitTo::First(n) => n.min(held),
        }
    }

    /// Lets the items of the groups that are handed out go; the next one becomes the first.
    pub fn shift<T: Copy>(self, items: &mut Vec<T>)
        ensures items { items.new.items ≡ left self items.old.items }
        ensures capacity { vec_capacity items.new ≡ vec_capacity items.old }
    {
        let held = items.len();
        let count = self.count(held);
        // A drain would turn the items around before it lets them go.
        items.rotate_left(count);
        items.truncate(held - count);
    }
}
