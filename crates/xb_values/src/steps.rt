ghost use Rattle.std.specs.Prelude.{◌≡◌, ◌+◌, ◌-◌, ◌^◌, ◌<◌};

use std::marker::{Model, PhantomData};

/// The ledger of a counter that its caller starts. A ledger only names a counter; it has no value.
#[derive(Drop)]
pub struct Brand;

/// A counter of steps, of a ledger `L`. Only [`Brand`] has a constructor, so that code which is generic in `L` can
/// neither replace the counter that its caller lends it nor set it back: it can only count on.
pub struct Steps<L> {
    count: u64,
    ledger: PhantomData<L>,
}

impl<L> Model for Steps<L> {
    ghost use Rattle.std.specs.Prelude.{ℕ};

    ghost Value = { ℕ };

    ghost view = { λ s. s.count };
}

impl<L> Drop for Steps<L> {
    fn drop(self) {
        let Steps {
            count: _,
            ledger: _,
        } = self;
    }
}

impl Steps<Brand> {
    /// A counter at 0.
    pub fn start() -> Steps<Brand>
        ensures { result ≡ 0 }
    {
        Steps {
            count: 0,
            ledger: PhantomData,
        }
    }
}

impl<L> Steps<L> {
    /// The steps so far.
    pub fn count(&self) -> u64
        ensures { result ≡ self.now }
    {
        self.count
    }

    /// Counts one more step.
    pub fn tick(&mut self)
        requires { self.old < 2 ^ 64 - 1 }
        ensures { self.new ≡ self.old + 1 }
    {
        self.count += 1;
    }
}
