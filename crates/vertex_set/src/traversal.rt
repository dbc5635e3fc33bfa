// Going through the members of a set from the lowest up.
use crate::lowest;

// The members of left, ascending. A `while let` over them may read what is left.
#[derive(Clone, Debug, Drop)]
pub struct Members {
    pub left: u64,
}

impl Iterator for Members {
    ghost use Rattle.std.specs.Iterator.{at_most};
    ghost use Rattle.vertex_set.specs.Sets.{size};
    ghost use Rattle.vertex_set.specs.Members.{GivesMember};

    type Item = usize;

    ghost next_gives = { GivesMember };

    ghost remaining = { λ it. at_most (size it.left) };

    fn next(&mut self) -> Option<usize> {
        if self.left == 0 {
            return None;
        }
        let member = lowest(self.left);
        self.left = self.left & (self.left - 1);
        Some(member)
    }
}
