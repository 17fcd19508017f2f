//! What every reservation does.

ghost use Rattle.std.specs.Prelude.{◌≡◌, Bool, ℕ};
ghost use Rattle.memory.specs.Resizes.{Resized};

/// The bytes that a part has been granted.
pub trait MemoryReservation {
    ghost bytes: { Self → ℕ };

    ghost granted: { Self → Bool };

    // Asked for so many bytes in all, it may answer so, and become that.
    ghost asks: { Self → ℕ → Bool → Self → Type 0 };

    /// Asks to hold `capacity` bytes in all, and says whether that was granted.
    fn try_resize(&mut self, capacity: usize) -> bool
        ensures { asks self.old capacity result self.new };

    /// How many bytes are held.
    fn size(&self) -> usize
        ensures { result ≡ bytes self.now };

    /// What was answered last.
    fn last_answer(&self) -> bool
        ensures { result ≡ granted self.now };

    ghost lawful: { (s : Self) (n : ℕ) (r : Bool) (t : Self) → asks s n r t → Resized n r (bytes s) (bytes t) (granted t) };
}
