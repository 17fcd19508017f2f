//! A reservation that remembers the most that was granted.

ghost use Rattle.std.specs.Prelude.{◌≡◌};
ghost use Rattle.memory.specs.Peaks.{peak_asks};

use crate::reservation::MemoryReservation;

/// Any reservation, with the most bytes that it has held.
#[derive(Debug, Drop)]
pub struct PeakReservation<R> {
    inner: R,
    peak: usize,
}

impl<R: MemoryReservation> PeakReservation<R> {
    /// Begins at the bytes that `inner` holds.
    pub fn new(inner: R) -> PeakReservation<R>
        ensures kept { result.inner ≡ inner }
        ensures begun { result.peak ≡ R.bytes inner }
    {
        let peak = inner.size();
        PeakReservation { inner, peak }
    }

    /// The most bytes that it has held.
    pub fn peak(&self) -> usize
        ensures { result ≡ self.now.peak }
    {
        self.peak
    }

    /// The reservation within.
    pub fn inner(&self) -> &R
        ensures { result.now ≡ self.now.inner }
    {
        &self.inner
    }
}

impl<R: MemoryReservation> MemoryReservation for PeakReservation<R> {
    ghost bytes = { λ s. R.MemoryReservation.bytes s.inner };

    ghost granted = { λ s. R.MemoryReservation.granted s.inner };

    ghost asks = { peak_asks R.MemoryReservation.asks };

    ghost lawful = { λ s n r t h. R.MemoryReservation.lawful s.inner n r t.inner h.0 };

    fn try_resize(&mut self, capacity: usize) -> bool {
        let granted = self.inner.try_resize(capacity);
        if granted {
            self.peak = self.peak.max(capacity);
        }
        granted
    }

    fn size(&self) -> usize {
        self.inner.size()
    }

    fn last_answer(&self) -> bool {
        self.inner.last_answer()
    }
}
