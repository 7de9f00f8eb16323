ghost use Rattle.std.specs.Prelude.{◌≡◌, ◌≤◌, ◌<◌, ◌⊎◌, ℕ, Bool, false, IsTrue, IsSome, List, Option, None, option_map, length};
ghost use Rattle.cc_edge.specs.Faults.{Rose, taken_after, end_after};
ghost use Rattle.cc_edge.specs.Files.{KeepsFiles, KeepsOthers, IsReadWithin, Gives, created, IsPutWithin, appended};

// The most bytes that this crate hands to one call.
pub(crate) const PIECE: usize = 4096;

/// What a read gave.
#[derive(Clone, Copy)]
pub enum Got {
    /// So many bytes, at the start of the piece; at least one.
    Bytes(usize),
    /// Nothing: the file has no byte at that place.
    End,
    /// Nothing: a fault, or a file that is not there.
    Failed,
}

/// Whether a file was made.
#[derive(Clone, Copy, PartialEq, Eq)]
pub enum Made {
    /// The file is there, and empty.
    Done,
    /// A fault.
    Failed,
}

/// What was taken of a piece.
#[derive(Clone, Copy, PartialEq, Eq)]
pub enum Put {
    /// So many bytes from its start; at least one.
    Bytes(usize),
    /// Nothing: a fault.
    Failed,
}

/// Files by name, and a count of faults.
///
/// A store tells its files, or else how many bytes its reads have given and where the last one found the end. What clauses say of files holds where
/// they are told, and what they say of `taken` and `end` where they are not; what they say of `told`
/// and of faults holds always.
pub trait Store {
    /// Whether the store tells its files. No call changes it.
    ghost told: { Self → Bool };

    /// The bytes of the file of a name, where there is one.
    ghost files: { Self → List ℕ → Option (List ℕ) };

    /// The count of faults. It never falls.
    ghost faults: { Self → ℕ };

    /// The count of bytes that reads have given. It stays at `u64::MAX` once it stands there.
    ghost taken: { Self → ℕ };

    /// The place at which the last read found the end of its file, if it did.
    ghost end: { Self → Option ℕ };

    /// Reads from the byte `at` of a file, as many bytes as the store likes and the piece holds.
    fn read_at(&mut self, name: &str, at: u64, piece: &mut [u8]) -> Got
        requires { 0 < length piece.old }
        ensures told { told self.new ≡ told self.old }
        ensures later { faults self.old ≤ faults self.new }
        ensures count { IsReadWithin result (length piece.new) }
        ensures cause { result ≡ Got.Failed → Rose (faults self.old) (faults self.new)
            ⊎ (IsTrue (told self.old) × (files self.old name.now ≡ None)) }

        // Where the files are told:
        ensures stay { IsTrue (told self.old) → KeepsFiles (files self.old) (files self.new) }
        ensures bytes { IsTrue (told self.old) → Gives result at piece.new (files self.old name.now) }
        ensures missing { IsTrue (told self.old) → files self.old name.now ≡ None →
            (result ≡ Got.Failed) × (faults self.new ≡ faults self.old) }

        // Where they are not:
        ensures taken { told self.old ≡ false → taken self.new ≡ taken_after result (taken self.old) }
        ensures end { told self.old ≡ false → end self.new ≡ end_after result at };

    /// Leaves the file empty, whether it was there or not, or fails and leaves it as it was.
    fn create(&mut self, name: &str) -> Made
        ensures told { told self.new ≡ told self.old }
        ensures later { faults self.old ≤ faults self.new }
        ensures taken { taken self.new ≡ taken self.old }
        ensures end { end self.new ≡ end self.old }
        ensures cause { result ≡ Made.Failed → Rose (faults self.old) (faults self.new) }

        // Where the files are told:
        ensures file { IsTrue (told self.old) → files self.new name.now ≡ created result (files self.old name.now) }
        ensures others { IsTrue (told self.old) → KeepsOthers name.now (files self.old) (files self.new) };

    /// Puts the first bytes of a piece behind those of a file, or fails and leaves it as it was.
    fn append(&mut self, name: &str, piece: &[u8]) -> Put
        requires some { 0 < length piece.now }
        requires there { IsTrue (told self.old) → IsSome (files self.old name.now) }
        ensures told { told self.new ≡ told self.old }
        ensures later { faults self.old ≤ faults self.new }
        ensures taken { taken self.new ≡ taken self.old }
        ensures end { end self.new ≡ end self.old }
        ensures count { IsPutWithin result (length piece.now) }
        ensures cause { result ≡ Put.Failed → Rose (faults self.old) (faults self.new) }

        // Where the files are told:
        ensures file { IsTrue (told self.old) →
            files self.new name.now ≡ option_map (appended result piece.now) (files self.old name.now) }
        ensures others { IsTrue (told self.old) → KeepsOthers name.now (files self.old) (files self.new) };
}
