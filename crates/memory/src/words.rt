// What a host lends of row memory besides the rows: words, in four parts, which are lent on together.
ghost use Rattle.std.specs.Prelude.{◌≡◌};
ghost use Rattle.model.specs.Memory.{same_lengths};
ghost use Rattle.memory.specs.Lengths.{fit_of};
ghost use Rattle.memory.specs.Words.{lengths_lent, lengths_seen, Sees};

use crate::lengths::same_lengths;
use model::Lengths;

// The parts: the store's words, the free stack, the queue of ready completions, and who has each buffer.
#[derive(Drop)]
pub struct Words<'a> {
    pub store: &'a mut [u64],
    pub free: &'a mut [u64],
    pub ready: &'a mut [u64],
    pub owners: &'a mut [u64],
}

// The same, to be read.
#[derive(Clone, Copy)]
pub struct View<'a> {
    pub store: &'a [u64],
    pub free: &'a [u64],
    pub ready: &'a [u64],
    pub owners: &'a [u64],
}

impl Words<'_> {
    // The same, to be read.
    pub fn view(&self) -> View<'_>
        ensures { Sees self.now result }
    {
        View {
            store: &*self.store,
            free: &*self.free,
            ready: &*self.ready,
            owners: &*self.owners,
        }
    }

    // The lengths of all that is lent, with so many rows and so many bytes of the pool.
    pub fn lengths(&self, rows: usize, pool: usize) -> Lengths
        ensures { result ≡ lengths_lent rows self.now pool }
    {
        self.view().lengths(rows, pool)
    }

    // Whether what is lent has the lengths of the opening, with so many rows and so many bytes of the pool.
    pub fn fits(&self, rows: usize, pool: usize) -> bool
        ensures { result ≡ same_lengths (lengths_lent rows self.now pool) self.now.store.now }
    {
        self.view().fits(rows, pool)
    }
}

impl View<'_> {
    // The lengths of all that is lent, with so many rows and so many bytes of the pool.
    pub fn lengths(&self, rows: usize, pool: usize) -> Lengths
        ensures { result ≡ lengths_seen rows self.now pool }
    {
        Lengths {
            rows: rows as u64,
            store: self.store.len() as u64,
            free: self.free.len() as u64,
            ready: self.ready.len() as u64,
            owners: self.owners.len() as u64,
            pool: pool as u64,
        }
    }

    // Whether what is lent has the lengths of the opening, with so many rows and so many bytes of the pool.
    pub fn fits(&self, rows: usize, pool: usize) -> bool
        ensures { result ≡ same_lengths (lengths_seen rows self.now pool) self.now.store.now }
    {
        same_lengths(self.store, self.lengths(rows, pool))
    }

    // What is lent, as a lookup finds it: the depth of the table where the lengths are the opening's, else nothing.
    pub fn fitted(&self, rows: usize, pool: usize) -> Option<usize>
        ensures { result ≡ fit_of (lengths_seen rows self.now pool) self.now.store.now }
    {
        if self.fits(rows, pool) {
            Some(crate::settings::settings(self.store).depth as usize)
        } else {
            None
        }
    }
}
