//! Where a worker finds the objects of a request.
ghost use Rattle.std.specs.Prelude.{◌≡◌};
ghost use Rattle.worker_slices.specs.Homes.{shard_at};

/// Where a worker finds an object.
#[derive(Clone, Copy)]
pub enum Home {
    /// There is no such object.
    Nowhere,
    /// It is hot: its slice is at this place.
    Slice(usize),
    /// It lies in the shard of this number.
    Shard(u32),
}

impl Home {
    /// The shard, where it lies in one.
    #[inline(always)]
    pub fn shard(self) -> Option<u32>
        ensures { result ≡ shard_at self }
    {
        match self {
            Home::Shard(shard) => Some(shard),
            Home::Nowhere | Home::Slice(_) => None,
        }
    }
}

/// Where a worker finds the item of a request, and its user or category.
#[derive(Clone, Copy)]
pub struct Homes {
    pub item: Home,
    pub other: Home,
}
