//! The hash of resources, with a seed.

ghost use Rattle.std.specs.Prelude.{◌≡◌};

use std::hash::{BuildHasher, FoldHasher, Hasher};

/// Hashes resources behind a seed. Who chooses resources and doesn't know the seed doesn't know which of them collide.
#[derive(Clone, Copy)]
pub struct Seeded {
    /// A hasher that the seed was fed to.
    behind_seed: FoldHasher,
}

impl Seeded {
    /// Hashes behind this seed.
    pub fn new(seed: u64) -> Seeded {
        let mut behind_seed = FoldHasher::default();
        behind_seed.write_u64(seed);
        Seeded { behind_seed }
    }
}

impl BuildHasher for Seeded {
    type Hasher = FoldHasher;

    ghost build_hasher = { λ s. s.behind_seed };

    fn build_hasher(&self) -> FoldHasher {
        self.behind_seed
    }
}
