// Files as a program sees them: a count of faults, which calls may fail, and perhaps what each name holds.
ghost use Rattle.std.specs.Prelude.{◌≡◌, ◌+◌, ◌-◌, ◌^◌, ◌<◌, ◌≤◌, ℕ, List, vec_len, IfOk, IsErrOf};
ghost use Rattle.hy_base.specs.declared.files.FileFault.TheVariants.{NoMemory};
ghost use Rattle.hy_base.specs.Files.{Held, file_faults_after, Loads, Stores};

use crate::NoMemory;
use std::alloc::Global;
use thiserror::Error;

/// Why a file was not loaded or stored.
#[derive(Clone, Copy, Debug, PartialEq, Eq, Error)]
pub enum FileFault {
    #[error("the files failed")]
    Failed,
    #[error("out of memory")]
    NoMemory,
}

impl From<NoMemory> for FileFault {
    ghost from_gives = { λ _ fault. fault ≡ NoMemory };

    fn from(_: NoMemory) -> Self {
        FileFault::NoMemory
    }
}

/// Contents by name.
pub trait Files {
    /// How many calls have failed.
    ghost faults: { Self → ℕ };

    /// What a name holds, where the files tell it.
    ghost holds: { Self → List ℕ → Held };

    /// Whether a load of this name may fail.
    ghost load_may_fail: { Self → List ℕ → Type 0 };

    /// Whether a store under this name may fail.
    ghost store_may_fail: { Self → List ℕ → Type 0 };

    /// The first `most + 1` bytes of a file, or all of a shorter one, so that a caller sees which are too long.
    fn load(&mut self, alloc: Global, name: &str, most: u32) -> Result<Vec<u8>, FileFault>
        requires { faults self.old < 2 ^ 64 - 1 }
        ensures faults { faults self.new ≡ file_faults_after (faults self.old) result }
        ensures cause { IsErrOf result FileFault.Failed → load_may_fail self.old name.now }
        ensures bytes { IfOk result (λ bytes. Loads (holds self.old name.now) most bytes.items) }
        ensures size { IfOk result (λ bytes. vec_len bytes ≤ most + 1) }
        ensures same { (n : List ℕ) → holds self.new n ≡ holds self.old n }
        ensures loads { (n : List ℕ) → load_may_fail self.new n → load_may_fail self.old n }
        ensures stores { (n : List ℕ) → store_may_fail self.new n → store_may_fail self.old n };

    /// Replaces what a name holds.
    fn store(&mut self, alloc: Global, name: &str, bytes: &[u8]) -> Result<(), FileFault>
        requires { faults self.old < 2 ^ 64 - 1 }
        ensures faults { faults self.new ≡ file_faults_after (faults self.old) result }
        ensures cause { IsErrOf result FileFault.Failed → store_may_fail self.old name.now }
        ensures bytes { Stores (holds self.old) (holds self.new) name.now bytes.now result }
        ensures loads { (n : List ℕ) → load_may_fail self.new n → load_may_fail self.old n }
        ensures stores { (n : List ℕ) → store_may_fail self.new n → store_may_fail self.old n };
}
