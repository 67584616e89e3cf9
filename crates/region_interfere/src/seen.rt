ghost use Rattle.std.specs.Prelude.{◌≡◌};
ghost use Rattle.region_interfere.specs.Groups.{seen_with, has_other, group_with, group_meets, no_group};

use lang_base::Access;

/// Which branches have something: none, one of them, or more than one.
#[derive(Clone, Copy, Debug, PartialEq, Eq)]
pub enum Seen {
    Nobody,
    One(u32),
    Many,
}

impl Seen {
    fn with(self, branch: u32) -> Seen
        ensures { result ≡ seen_with self branch }
    {
        match self {
            Seen::Nobody => Seen::One(branch),
            Seen::One(first) if first == branch => self,
            _ => Seen::Many,
        }
    }

    fn has_other(self, branch: u32) -> bool
        ensures { result ≡ has_other self branch }
    {
        match self {
            Seen::Nobody => false,
            Seen::One(first) => first != branch,
            Seen::Many => true,
        }
    }
}

/// The branches that have an effect of some group, and those that have a write of it.
#[derive(Clone, Copy, Debug, PartialEq, Eq)]
pub struct Group {
    pub any: Seen,
    pub writers: Seen,
}

impl Group {
    pub fn none() -> Group
        ensures { result ≡ no_group }
    {
        Group {
            any: Seen::Nobody,
            writers: Seen::Nobody,
        }
    }

    /// The group with an effect of a branch more.
    pub fn with(self, branch: u32, access: Access) -> Group
        ensures { result ≡ group_with self branch access }
    {
        Group {
            any: self.any.with(branch),
            writers: match access {
                Access::Read => self.writers,
                Access::Write => self.writers.with(branch),
            },
        }
    }

    /// Whether a read or a write of a branch meets an effect of another branch in the group, one of the two being
    /// a write.
    pub fn meets(self, branch: u32, access: Access) -> bool
        ensures { result ≡ group_meets self branch access }
    {
        match access {
            Access::Read => self.writers.has_other(branch),
            Access::Write => self.any.has_other(branch),
        }
    }
}
