// Buffers of the length that a call asks for, and of others.
ghost use Rattle.std.specs.Prelude.{◌≡◌};
ghost use Rattle.test_support.specs.Definitions.Rooms.{places};

// As many places as are asked for, some more, or one fewer.
#[derive(Clone, Copy, PartialEq, Eq)]
pub enum Room {
    Exact,
    Longer,
    Shorter,
}

impl Room {
    // How many places that is, of a size, with so many more.
    pub fn places(self, size: usize, more: usize) -> usize
        ensures { result ≡ places self size more }
    {
        match self {
            Room::Exact => size,
            Room::Longer => size.saturating_add(more),
            Room::Shorter => size.saturating_sub(1),
        }
    }
}

// How many places of each buffer are lent to a coding or a rebuilding.
#[derive(Clone, Copy)]
pub struct Lengths {
    pub picture: usize,
    pub levels: usize,
    pub work: usize,
}
