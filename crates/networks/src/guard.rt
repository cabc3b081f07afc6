//! A lent work area that is cleared when its use ends.

ghost use Rattle.networks.specs.Cleared.{AllZero};

/// Holds the lent words of a work area and sets them all to 0 when it ends, however the call ends that holds it.
pub struct Cleared<'a> {
    pub words: &'a mut [u32],
}

impl Drop for Cleared<'_> {
    fn drop(self)
        ensures { AllZero self.exit.0.now }
    {
        self.words.fill(0);
        let Cleared { words: _ } = self;
    }
}
