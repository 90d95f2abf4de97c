ghost use Rattle.std.specs.Prelude.{◌≡◌, [], ◌<◌};

use ppd_io::{Failed, Sink};
use std::alloc::Global;
use std::marker::Model;

/// Keeps all that is written, and fails only by want of memory.
#[derive(Drop)]
pub(crate) struct TextSink {
    text: Vec<u8>,
    faults: u64,
}

impl Model for TextSink {
    ghost use Rattle.ppd_top_following.specs.Kept.{Kept};

    ghost Value = { Kept };

    ghost view = { λ s. record { text = s.text.items; faults = s.faults } };
}

impl TextSink {
    /// Keeps nothing yet.
    pub(crate) fn new(alloc: Global) -> TextSink
        ensures { result ≡ record { text = []; faults = 0 } }
    {
        TextSink {
            text: Vec::new(alloc),
            faults: 0,
        }
    }

    /// What was written.
    pub(crate) fn into_text(self) -> Vec<u8>
        ensures { result.items ≡ self.text }
    {
        self.text
    }
}

impl Sink for TextSink {
    ghost use Rattle.std.specs.Prelude.{Some};

    ghost written = { λ s. Some s.text };

    ghost faults = { λ s. s.faults };

    fn write(&mut self, piece: &[u8]) -> Result<usize, Failed> {
        if self.text.extend_from_slice(piece).is_err() {
            self.faults = self.faults.saturating_add(1);
            return Err(Failed);
        }
        Ok(piece.len())
    }
}
