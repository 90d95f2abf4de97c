ghost use Rattle.std.specs.Prelude.{◌≡◌};
ghost use Rattle.test_devices.specs.Forms.{fails_next, after_call};

use std::marker::Model;

/// The calls of a form in memory, numbered from 0, of which the listed ones fail.
#[derive(Drop)]
pub struct ListedCalls {
    fails: Vec<u32>,
    next: u64,
}

impl Model for ListedCalls {
    ghost use Rattle.test_devices.specs.Forms.{Calls};

    ghost Value = { Calls };

    ghost view = { λ s. record { fails = s.fails.items; next = s.next } };
}

impl ListedCalls {
    /// The calls with these numbers fail.
    pub fn new(fails: Vec<u32>) -> ListedCalls
        ensures { result ≡ record { fails = fails.items; next = 0 } }
    {
        ListedCalls { fails, next: 0 }
    }

    /// Counts one call, and says whether it fails.
    pub fn fails_next(&mut self) -> bool
        ensures listed { result ≡ fails_next self.old }
        ensures after { self.new ≡ after_call self.old }
    {
        let call = self.next;
        self.next = self.next.saturating_add(1);
        self.fails.iter().any(|number| u64::from(*number) == call)
    }
}
